//! A packer that writes while it receives text.

ghost use Rattle.std.specs.Prelude.{◌≡◌, ◌+◌, ◌<◌, ◌^◌, [], ◌∷◌, false, length, map, IfOk, IfErr, OnOk, OnErr, IfSome, IfNone, MatchResult, Err};
ghost use Rattle.wire_story.specs.Format.Texts.{LineOctet, LineEnd, IsLine};
ghost use Rattle.iim_pack.specs.States.Packing.{Lengthens, BreaksOff, ContinuesWith, Finishes, FormWith, least_ending, start_cause, text_cause, line_end_cause, finish_cause, written_of, StartsPacking, RejectsStart, IsStartFault, HasPackedSoFar, KeepsPacking, WritesPackedForm};
ghost use Rattle.iim_pack.specs.Format.Orders.{IsFirstInOrder, CauseHolds};
ghost use Rattle.iim_pack.specs.Format.Packed.{Packed};
ghost use Rattle.wire_message.specs.Format.Messages.{packed_head};
ghost use Rattle.wire_story.specs.Format.Packing.{lines_of};
ghost use Rattle.iim_object.specs.States.Writing.{plan_capacity, total_of};
ghost use Rattle.iim_object.specs.declared.writing.cause.PackCause.TheVariants as causes;

use crate::cause::{LEAST_ENDING, ending_cause, exceeds_plan};
use crate::ending::end_object;
use crate::fields::put_fields;
use crate::opening::open_object;
use iim_dataset::Target;
use iim_dataset::device_laws::writes_join;
use iim_fields::Envelope;
use iim_object::{PackCause, Plan, StartFault, SubfileBuffer, SubfileWriter};
use std::alloc::Global;
use std::marker::Model;
use wire_message::laws::message_laws;
use wire_message::{MessageHead, head_text, tail_text};
use wire_story::laws::{
    line_ends_are_packed_as_return_and_feed, lines_are_packed_as_their_events, story_laws,
};
use wire_story::{LINE_END, is_text};

/// Packs an envelope and a header, and a text that is received in chunks.
///
/// It buffers at most one subfile of the plan's size, or the plan's bound if that is less.
/// [`Packer::start`] allocates exactly that much memory at once, and no later call allocates.
/// Everything else has a fixed size of less than 256 octets: the plan, four counts, whether a write
/// failed, and the writer.
///
/// Its model in contracts is the length of records 1 and 2, and the writer of its object.
/// `HasPackedSoFar` (`specs/States/Packing.antt`) relates it to what it has consumed and written.
#[derive(Drop)]
pub struct Packer<W> {
    before: u64,
    object: SubfileWriter<W>,
}

impl<W> Model for Packer<W> {
    ghost use Rattle.std.specs.Prelude.{◌<◌, ◌^◌};
    ghost use Rattle.iim_pack.specs.States.Packing.{Packing};

    ghost Value = { Packing W };

    ghost view = { λ k. record { before = k.before; object = k.object } };

    ghost invariant = { λ k. k.before < 2 ^ 40 };
}

/// Returns the error of a packer that could not be started: the cause, the writer, and the number
/// of octets written.
fn start_fault<W>(cause: PackCause, writer: W, written: u64) -> StartFault<W>
    ensures { result ≡ record { cause = cause; writer = writer; written = written } }
{
    StartFault {
        cause,
        writer,
        written,
    }
}

impl<W: Target> Packer<W> {
    /// Writes records 1, 2 and 7, and begins the object with the header.
    ///
    /// **Errors**, in this order: `PastAnnounced` if the header and the shortest ending (ETX and
    /// EOT) exceed the plan's bound; `OutOfMemory` if the allocation fails; `Write` if a write
    /// fails. The first two write nothing. After `Write`, the `written` octets that were written
    /// are a prefix of each packed form of the envelope, header and plan. Each error has the
    /// writer.
    pub fn start(
        alloc: Global,
        envelope: &Envelope,
        head: &MessageHead,
        plan: Plan,
        mut writer: W,
    ) -> Result<Packer<W>, StartFault<W>>
        ensures refused { IfSome (start_cause head.now plan)
            (λ cause. MatchResult result (λ _. ⊥) (RejectsStart cause writer)) }
        ensures order { IsFirstInOrder (CauseHolds false [] [] plan (length (packed_head head.now) + least_ending))
            (causes.PastAnnounced ∷ []) (start_cause head.now plan) }
        ensures ok { IfOk result (StartsPacking W.state writer envelope.now head.now plan) }
        ensures begun { IfOk result (λ k. HasPackedSoFar W.state (W.state writer) k envelope.now head.now [] plan) }
        ensures fault { IfNone (start_cause head.now plan)
            (IfErr result (IsStartFault W.state (FormWith envelope.now head.now plan []) writer)) }
        ensures room { IfOk result (λ k. k.object.room ≡ plan_capacity plan) }
    {
        lines_are_packed_as_their_events();
        writes_join();
        let text = head_text(head);
        let front = text.as_slice();
        if exceeds_plan(plan, front.len() as u64, LEAST_ENDING) {
            return Err(start_fault(PackCause::PastAnnounced, writer, 0));
        }
        let buffer = match SubfileBuffer::reserve(alloc, plan) {
            Ok(buffer) => buffer,
            Err(_) => return Err(start_fault(PackCause::OutOfMemory, writer, 0)),
        };
        let before = match put_fields(&mut writer, envelope) {
            Ok(before) => before,
            Err(written) => return Err(start_fault(PackCause::Write, writer, written)),
        };
        match open_object(buffer, front, writer) {
            Ok(object) => Ok(Packer { before, object }),
            Err(fault) => Err(start_fault(fault.cause, fault.writer, before + fault.written)),
        }
    }

    /// Appends octets to the current line. The packed form does not depend on how the text is split
    /// into calls.
    ///
    /// **Errors**, in this order: `Failed` after a failed write; `BadTextOctet` if an octet is not
    /// allowed in a line (CR and LF are not: `line_end` writes them); `PastAnnounced` if the object
    /// so far, these octets and the shortest ending exceed the plan's bound; `Write` if a write
    /// fails. The first three write and change nothing.
    pub fn text(&mut self, octets: &[u8]) -> Result<(), PackCause>
        ensures refused { IfSome (text_cause self.old octets.now)
            (λ cause. (result ≡ Err cause) × (self.new ≡ self.old)) }
        ensures order { IsFirstInOrder (CauseHolds self.old.object.failed octets.now [] self.old.object.plan
            (total_of self.old.object + (length octets.now + least_ending)))
            (causes.Failed ∷ causes.BadTextOctet ∷ causes.PastAnnounced ∷ []) (text_cause self.old octets.now) }
        ensures ok { OnOk result (Lengthens W.state self.old self.new (map LineOctet octets.now)) }
        ensures begun { OnOk result (KeepsPacking W.state self.old self.new (map LineOctet octets.now)) }
        ensures cause { IfNone (text_cause self.old octets.now) (IfErr result (λ cause. cause ≡ causes.Write)) }
        ensures broke { IfNone (text_cause self.old octets.now)
            (OnErr result (BreaksOff W.state (ContinuesWith (map LineOctet octets.now)) self.old self.new)) }
        ensures room { self.new.object.room ≡ self.old.object.room }
    {
        if self.object.is_failed() {
            return Err(PackCause::Failed);
        }
        if !is_text(octets) {
            return Err(PackCause::BadTextOctet);
        }
        self.text_unchecked(octets)
    }

    /// Appends octets to the current line as [`Packer::text`] does, but does not check that each is
    /// allowed in a line: the caller must guarantee this.
    ///
    /// **Errors**, in this order: `Failed` after a failed write; `PastAnnounced` if the object so
    /// far, these octets and the shortest ending exceed the plan's bound; `Write` if a write fails.
    /// The first two write and change nothing.
    pub fn text_unchecked(&mut self, octets: &[u8]) -> Result<(), PackCause>
        requires { IsLine octets.now }
        ensures refused { IfSome (text_cause self.old octets.now)
            (λ cause. (result ≡ Err cause) × (self.new ≡ self.old)) }
        ensures order { IsFirstInOrder (CauseHolds self.old.object.failed octets.now [] self.old.object.plan
            (total_of self.old.object + (length octets.now + least_ending)))
            (causes.Failed ∷ causes.BadTextOctet ∷ causes.PastAnnounced ∷ []) (text_cause self.old octets.now) }
        ensures ok { OnOk result (Lengthens W.state self.old self.new (map LineOctet octets.now)) }
        ensures begun { OnOk result (KeepsPacking W.state self.old self.new (map LineOctet octets.now)) }
        ensures cause { IfNone (text_cause self.old octets.now) (IfErr result (λ cause. cause ≡ causes.Write)) }
        ensures broke { IfNone (text_cause self.old octets.now)
            (OnErr result (BreaksOff W.state (ContinuesWith (map LineOctet octets.now)) self.old self.new)) }
        ensures room { self.new.object.room ≡ self.old.object.room }
    {
        writes_join();
        lines_are_packed_as_their_events();
        if self.object.is_failed() {
            return Err(PackCause::Failed);
        }
        if exceeds_plan(
            self.object.plan(),
            self.object.total(),
            octets.len() as u64 + LEAST_ENDING,
        ) {
            return Err(PackCause::PastAnnounced);
        }
        self.object.write(octets)
    }

    /// Ends the current line with CR and LF.
    ///
    /// **Errors**, in this order: `Failed` after a failed write; `PastAnnounced` if the object so
    /// far, the line end and the shortest ending exceed the plan's bound; `Write` if a write fails.
    /// The first two write and change nothing.
    pub fn line_end(&mut self) -> Result<(), PackCause>
        ensures refused { IfSome (line_end_cause self.old) (λ cause. (result ≡ Err cause) × (self.new ≡ self.old)) }
        ensures order { IsFirstInOrder (CauseHolds self.old.object.failed [] [] self.old.object.plan
            (total_of self.old.object + (2 + least_ending)))
            (causes.Failed ∷ causes.PastAnnounced ∷ []) (line_end_cause self.old) }
        ensures ok { OnOk result (Lengthens W.state self.old self.new (LineEnd ∷ [])) }
        ensures begun { OnOk result (KeepsPacking W.state self.old self.new (LineEnd ∷ [])) }
        ensures cause { IfNone (line_end_cause self.old) (IfErr result (λ cause. cause ≡ causes.Write)) }
        ensures broke { IfNone (line_end_cause self.old)
            (OnErr result (BreaksOff W.state (ContinuesWith (LineEnd ∷ [])) self.old self.new)) }
        ensures room { self.new.object.room ≡ self.old.object.room }
    {
        writes_join();
        lines_are_packed_as_their_events();
        line_ends_are_packed_as_return_and_feed();
        if self.object.is_failed() {
            return Err(PackCause::Failed);
        }
        if exceeds_plan(self.object.plan(), self.object.total(), 2 + LEAST_ENDING) {
            return Err(PackCause::PastAnnounced);
        }
        self.object.write(&LINE_END)
    }

    /// Ends the message with the trailer. Returns the writer, to which the complete packed form was
    /// written.
    ///
    /// **Errors**, in this order: `Failed` after a failed write; `BadTrailer` if the octets are not
    /// a valid trailer; `PastAnnounced` if the object with its ending (ETX, the trailer and EOT)
    /// exceeds the plan's bound; `ShortOfAnnounced` if the object is shorter than a known size;
    /// `Write` if a write fails. Each error has the packer. All but `Write` write and change
    /// nothing.
    pub fn finish(self, trailer: &[u8]) -> Result<W, (Packer<W>, PackCause)>
        ensures refused { IfSome (finish_cause self trailer.now) (λ cause. result ≡ Err (self, cause)) }
        ensures order { IsFirstInOrder (CauseHolds self.object.failed [] trailer.now self.object.plan
            (total_of self.object + (length trailer.now + least_ending)))
            (causes.Failed ∷ causes.BadTrailer ∷ causes.PastAnnounced ∷ causes.ShortOfAnnounced ∷ [])
            (finish_cause self trailer.now) }
        ensures ok { IfOk result (λ writer. Finishes W.state self trailer.now writer) }
        ensures begun { IfOk result (WritesPackedForm W.state self trailer.now) }
        ensures cause { IfNone (finish_cause self trailer.now) (IfErr result (λ refused. refused.1 ≡ causes.Write)) }
        ensures broke { IfNone (finish_cause self trailer.now)
            (IfErr result (λ refused. BreaksOff W.state
            (λ fields head before. Packed fields head (lines_of before) trailer.now) self refused.0)) }
        ensures room { IfErr result (λ refused. refused.0.object.room ≡ self.object.room) }
    {
        writes_join();
        story_laws();
        message_laws();
        if self.object.is_failed() {
            return Err((self, PackCause::Failed));
        }
        if let Some(cause) = ending_cause(self.object.plan(), self.object.total(), trailer) {
            return Err((self, cause));
        }
        let tail = tail_text(trailer).unwrap();
        let Packer { before, object } = self;
        match end_object(object, tail.as_slice()) {
            Ok(writer) => Ok(writer),
            Err((object, cause)) => Err((Packer { before, object }, cause)),
        }
    }

    /// Returns the number of octets written, including those of a write that failed.
    pub fn written(&self) -> u64
        ensures { result ≡ written_of self.now }
    {
        self.before + self.object.written()
    }

    /// Returns the writer, in its current state.
    pub fn into_writer(self) -> W
        ensures { result ≡ self.object.writer }
    {
        self.object.into_writer()
    }
}
