//! Why a step is a dynamic error.
use crate::columns::component_in;
use crate::step::{Speaker, Step};
use chart_causes::{Cause, Scene, statement_at};
use config_parts::Config;
use std::alloc::{AllocError, Global};
use ttcn_syntax::Span;
use value_types::Path;

/// What a step is without a statement that is a dynamic error: the end of a function whose result is waited for.
const WITHOUT_RESULT: &str = "a function ends without the result that is waited for";

/// Where a step is a dynamic error, and why: no words where that isn't found.
#[derive(Drop)]
pub(crate) struct Failure {
    pub(crate) place: Option<Span>,
    pub(crate) words: String,
}

impl Failure {
    /// The failure of a step whose cause isn't found.
    fn at(alloc: Global, step: Step<'_>) -> Result<Failure, AllocError> {
        Ok(Failure {
            place: step.told.place,
            words: String::new(alloc),
        })
    }
}

impl<'a> Speaker<'a> {
    /// Why what a component asks for is a dynamic error, or what stands where it is, and the place of that.
    fn cause_in(
        self,
        alloc: Global,
        step: Step<'_>,
        scene: Scene<'_>,
    ) -> Result<Failure, AllocError> {
        match (&step.told.request, step.told.place) {
            (Some(request), place) => Ok(Failure {
                place,
                words: scene.refusal(alloc, request)?,
            }),
            (None, Some(place)) => match statement_at(self.names.definitions, place) {
                Some(statement) => {
                    let Cause { place, words } = scene.cause(alloc, statement)?;
                    Ok(Failure {
                        place: Some(place),
                        words,
                    })
                }
                None => Failure::at(alloc, step),
            },
            (None, None) => Ok(Failure {
                place: None,
                words: String::from_str(alloc, WITHOUT_RESULT)?,
            }),
        }
    }

    /// Why the step of a component's statement is a dynamic error.
    pub(crate) fn failure(
        self,
        alloc: Global,
        step: Step<'_>,
        path: &Path,
    ) -> Result<Failure, AllocError> {
        match (step.before, component_in(step.before, path)) {
            (Config::Going(going), Some(component)) => {
                let running = going.running(alloc)?;
                let scene = Scene::new(
                    self.names,
                    self.defined,
                    going,
                    component,
                    running.as_slice(),
                    self.mtc,
                );
                self.cause_in(alloc, step, scene)
            }
            _ => Failure::at(alloc, step),
        }
    }
}
