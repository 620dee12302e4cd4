//! What passes at ports of a type (ES 201 873-1, 6.2.9).
ghost use Rattle.std.specs.Prelude.{◌≡◌, Some};
ghost use Rattle.check_scope.specs.internal.Traffic.{types_through};

use crate::type_listing::Listing;

/// What passes at ports of a type.
#[derive(Drop)]
pub struct Traffic {
    pub(crate) incoming: Listing,
    pub(crate) outgoing: Listing,
}

impl Traffic {
    /// What passes in a direction.
    pub fn towards(&self, incoming: bool) -> &Listing
        ensures { result.now.types.items ≡ types_through (Some self.now) incoming }
    {
        if incoming {
            &self.incoming
        } else {
            &self.outgoing
        }
    }
}
