//! The push parser of a text, which accepts any split of the octets into slices.

ghost use Rattle.std.specs.Prelude.{◌≡◌, ◌≤◌, [], List, ℕ, Option, is_none, Some, None, ◌↔◌, IsSome, IfSome, IfErr, OnOk, OnErr};
ghost use Rattle.std.specs.Option.{ForSome};
ghost use Rattle.wire_story.specs.Format.Texts.{HasLines, max_returns, End, EndsViableStory};
ghost use Rattle.wire_story.specs.States.Reading.{TextReaderHasRead, TextReaderConsumes, TextReaderRejects};

use crate::fault::{TextCause, TextFault};
use crate::laws::text_states_are_reached;
use crate::piece::consume_chunk;
use crate::sink::StorySink;
use std::marker::Model;

/// The maximum number of pending CR. A third one is rejected.
const MAX_PENDING: u8 = 2;

/// A push parser of a text. It stores only the number of CR at the end of the octets so far.
///
/// Its model in contracts is that number, or `None` after an error.
#[derive(Debug, Drop)]
pub struct TextReader {
    held: Option<u8>,
}

impl Model for TextReader {
    ghost Value = { Option ℕ };

    ghost view = { λ reader. reader.held };

    ghost invariant = { λ reader. ForSome reader.held (λ held. held ≤ max_returns) };
}

impl TextReader {
    /// Creates a reader at the start of a text.
    pub fn new() -> TextReader
        ensures takes_calls { IsSome result }
        ensures stands { TextReaderHasRead result [] }
    {
        TextReader { held: Some(0) }
    }

    /// Returns whether a call has returned an error.
    pub fn is_failed(&self) -> bool
        ensures { result ≡ is_none self.now }
    {
        self.held.is_none()
    }

    /// Returns the number of CR at the end of the octets so far, which is at most 2. Nothing is
    /// delivered for them yet. The reader must not have failed.
    pub fn held(&self) -> u8
        requires { IsSome self.now }
        ensures { self.now ≡ Some result }
    {
        self.held.unwrap()
    }

    /// Creates a reader with `held` pending CR. Returns `None` if that is more than 2, since no
    /// octets reach that state.
    pub fn at(held: u8) -> Option<TextReader>
        ensures place { IfSome result (λ reader. reader ≡ Some held) }
        ensures exactly { IsSome result ↔ ((octets : List ℕ) × TextReaderHasRead (Some held) octets) }
    {
        text_states_are_reached();
        if held > MAX_PENDING {
            return None;
        }
        Some(TextReader { held: Some(held) })
    }

    /// Feeds the next octets of the text, and passes to the sink what is delivered for them. On an
    /// error, passes what is delivered for the octets before the rejected one.
    ///
    /// **Errors:** the first octet with which the octets so far are no longer a viable prefix of a
    /// text, or at which the sink stopped. The reader has then failed ([`TextReader::is_failed`]),
    /// and must not be called again.
    pub fn run<S: StorySink>(&mut self, run: &[u8], sink: &mut S) -> Result<(), TextFault>
        requires { IsSome self.old }

        // The octets so far, including the slice, are a viable prefix of a text, and the sink
        // received what is delivered for the slice.
        ensures takes_calls { OnOk result (IsSome self.new) }
        ensures taken { OnOk result (TextReaderConsumes S.goes S.failures self.old run.now self.new sink.old sink.new) }

        // With the rejected octet, the octets are no longer a viable prefix, or the sink stopped.
        ensures failed { OnErr result (self.new ≡ None) }
        ensures refused { IfErr result (λ fault.
            TextReaderRejects S.goes S.failures self.old run.now fault sink.old sink.new) }
    {
        match consume_chunk(self.held.unwrap(), run, sink) {
            Ok(held) => {
                self.held = Some(held);
                Ok(())
            }
            Err(fault) => {
                self.held = None;
                Err(fault)
            }
        }
    }

    /// Ends the text.
    ///
    /// **Errors:** `LoneReturn`, with `taken` 0, if a CR is pending. The reader has then failed.
    pub fn close(&mut self) -> Result<(), TextFault>
        requires { IsSome self.old }

        // The octets so far are a complete text.
        ensures unchanged { OnOk result (self.new ≡ self.old) }
        ensures text { OnOk result ((octets : List ℕ) → TextReaderHasRead self.old octets → HasLines octets) }

        // A CR is pending, so the text cannot end here.
        ensures failed { OnErr result (self.new ≡ None) }
        ensures fault { IfErr result (λ fault. (fault.taken ≡ 0) × (fault.cause ≡ TextCause.LoneReturn)) }
        ensures refused { OnErr result ((octets : List ℕ) → TextReaderHasRead self.old octets
            → EndsViableStory octets End) }
    {
        if self.held.unwrap() == 0 {
            return Ok(());
        }
        self.held = None;
        Err(TextFault {
            taken: 0,
            cause: TextCause::LoneReturn,
        })
    }
}
