//! Passes datasets to the parts of an unpacker.

ghost use Rattle.std.specs.Prelude.{refl};
ghost use Rattle.std.proofs.Common.{◌∙◌};
ghost use Rattle.iim_unpack.specs.RouterSteps.{parts_emit_nil, parts_emit_append, parts_reject_append, ended_parts_accept_nothing, RouterSteps, RouterRejects, RouterAccepts, RouterHasEnded};

use crate::parts::Parts;
use iim_dataset::{DatasetSink, Head, Step, Stop};
use iim_places::internals::TokenFault;
use wire_story::StorySink;

/// A sink of datasets that passes them to the parts of an unpacker, and the text in them to a sink
/// of stories. After a failure it has the error.
pub(crate) struct Router<'p, 's, S> {
    /// The parts to which the datasets are passed.
    pub parts: &'p mut Parts,
    /// The sink to which the text is passed.
    pub sink: &'s mut S,
    /// The error of the rejected token, or `None`.
    pub refused: Option<TokenFault>,
}

impl<'p, 's, S: StorySink> DatasetSink for Router<'p, 's, S> {
    ghost goes = { RouterSteps S.goes S.failures };

    ghost stops = { RouterRejects S.goes S.failures };

    ghost stands = { RouterAccepts };

    ghost ends = { RouterHasEnded };

    ghost nothing = { λ a. (
      refl,
      refl,
      parts_emit_nil (S.nothing a.sink.now),
      refl,
    ) };

    ghost joined = { λ a b c xs ys h k. (
      h.0 ∙ k.0,
      h.1 ∙ k.1,
      parts_emit_append S.joined h.2 k.2,
      k.3 ∙ h.3,
    ) };

    ghost ended = { λ a left ended takes. ended_parts_accept_nothing a.parts.now left ended takes };

    ghost joined_stop = { λ a b c xs ys event h k. (
      h.0 ∙ k.0,
      h.1 ∙ k.1,
      parts_reject_append S.joined h.2 k.2,
      k.3 ∙ h.3,
    ) };

    fn head(&mut self, head: Head) -> Result<(), Stop> {
        match self.parts.head(head, &mut *self.sink) {
            Ok(()) => Ok(()),
            Err(fault) => {
                self.refused = Some(fault);
                Err(Stop { taken: 0 })
            }
        }
    }

    #[inline(always)]
    fn prefers_whole_datasets(&self) -> bool {
        true
    }

    #[inline(always)]
    fn whole(&mut self, head: Head, octets: &[u8]) -> Result<Option<Step>, Stop> {
        match self.parts.whole(head, octets, &mut *self.sink) {
            Ok(step) => Ok(step),
            Err(halt) => {
                self.refused = Some(halt.fault);
                Err(Stop { taken: halt.taken })
            }
        }
    }

    fn run(&mut self, run: &[u8]) -> Result<(), Stop> {
        match self.parts.run(run, &mut *self.sink) {
            Ok(()) => Ok(()),
            Err(halt) => {
                self.refused = Some(halt.fault);
                Err(Stop { taken: halt.taken })
            }
        }
    }

    fn close(&mut self) -> Result<Step, Stop> {
        match self.parts.close() {
            Ok(()) => {
                if self.parts.has_ended() {
                    return Ok(Step::Last);
                }
                Ok(Step::More)
            }
            Err(fault) => {
                self.refused = Some(fault);
                Err(Stop { taken: 0 })
            }
        }
    }
}
