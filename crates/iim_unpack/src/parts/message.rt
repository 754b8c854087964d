//! Passes the octets of an object to the message reader, and the text in them to the caller's sink.

ghost use Rattle.std.specs.Prelude.{◌≡◌, ◌<◌, length, map, take, slice_index, Some, IsSome, IfErr, OnOk, refl};
ghost use Rattle.std.proofs.Common.{◌∙◌};
ghost use Rattle.iim_object.specs.Format.Objects.{ObjectOctet, head_token};
ghost use Rattle.iim_object.specs.States.Reading.{TokenAdvancesObject, RejectsObjectHead, RejectsObjectOctet, events_at};
ghost use Rattle.iim_unpack.specs.RouterSteps.{MessageEmits, MessageRejects, ToMessageConsumes, ToMessageRejects, ObjectRejectsHead, message_emits_nil, message_emits_append, message_rejects_append};

use iim_dataset::{Head, Stop};
use iim_object::{ObjectFault, ObjectReader, ObjectSink};
use iim_places::internals::{TokenFault, message_fault_on, size_fault_on};
use wire_message::{MessageCause, MessageFault, MessageReader};
use wire_story::StorySink;

/// A sink for the octets of an object. It passes them to a reader of messages, and the text in them
/// to a sink of stories. After a failure it has the cause.
pub(crate) struct ToMessage<'m, 's, S> {
    message: &'m mut MessageReader,
    sink: &'s mut S,
    cause: Option<MessageCause>,
}

impl<'m, 's, S: StorySink> ObjectSink for ToMessage<'m, 's, S> {
    ghost goes = { ToMessageConsumes S.goes S.failures };

    ghost stops = { ToMessageRejects S.goes S.failures };

    ghost stands = { λ a. IsSome a.message.now };

    ghost nothing = { λ a. (
      refl,
      refl,
      λ some. message_emits_nil some (S.nothing a.sink.now),
    ) };

    ghost joined = { λ a b c xs ys h k. (
      h.0 ∙ k.0,
      h.1 ∙ k.1,
      λ some. let p = h.2 some in message_emits_append S.joined p (k.2 p.takes_calls),
    ) };

    ghost joined_stop = { λ a b c xs ys refused h k. (
      h.0 ∙ k.0,
      h.1 ∙ k.1,
      λ some. let p = h.2 some in message_rejects_append S.joined p (k.2 p.takes_calls),
    ) };

    fn run(&mut self, run: &[u8]) -> Result<(), Stop> {
        if run.is_empty() {
            return Ok(());
        }
        match self.message.feed(run, &mut *self.sink) {
            Ok(()) => Ok(()),
            Err(fault) => {
                self.cause = Some(fault.cause);
                Err(Stop { taken: fault.taken })
            }
        }
    }

    fn close(&mut self) -> Result<(), Stop> {
        match self.message.close() {
            Ok(()) => Ok(()),
            Err(fault) => {
                self.cause = Some(fault.cause);
                Err(Stop { taken: 0 })
            }
        }
    }
}

/// Ends a mutable borrow, for the prover. The value is unchanged.
pub(crate) fn end_borrow<T>(lent: &mut T)
    ensures { lent.new ≡ lent.old }
{}

/// Passes octets to the object reader. The references in the sink afterwards point to the same
/// values as before.
fn run_object<'m, 's, S: StorySink>(
    object: &mut ObjectReader,
    run: &[u8],
    to: &mut ToMessage<'m, 's, S>,
) -> Result<(), ObjectFault>
    requires object { IsSome object.old }
    requires message { IsSome to.old.message.now }
    ensures same { OnOk result (object.new ≡ object.old) }
    ensures message { to.new.message.ghost_name ≡ to.old.message.ghost_name }
    ensures sink { to.new.sink.ghost_name ≡ to.old.sink.ghost_name }
    ensures told { OnOk result (MessageEmits S.goes S.failures (to.old.message.now, to.old.sink.now)
        (map ObjectOctet run.now) (to.new.message.now, to.new.sink.now)) }
    ensures refused { IfErr result (RejectsObjectOctet (MessageRejects S.goes S.failures to.new.cause) run.now
        (to.old.message.now, to.old.sink.now) (to.new.message.now, to.new.sink.now)) }
{
    object.run(run, to)
}

/// Passes the head of 8:10 or 9:10 to the object reader. The references in the sink afterwards
/// point to the same values as before.
fn end_object<'m, 's, S: StorySink>(
    object: &mut ObjectReader,
    head: Head,
    to: &mut ToMessage<'m, 's, S>,
) -> Result<(), ObjectFault>
    requires object { IsSome object.old }
    requires message { IsSome to.old.message.now }
    ensures message { to.new.message.ghost_name ≡ to.old.message.ghost_name }
    ensures sink { to.new.sink.ghost_name ≡ to.old.sink.ghost_name }
    ensures takes_calls { OnOk result (IsSome object.new) }
    ensures leads_on { OnOk result (TokenAdvancesObject object.old (head_token head.rec head.count) object.new) }
    ensures told { OnOk result (MessageEmits S.goes S.failures (to.old.message.now, to.old.sink.now)
        (events_at head.rec) (to.new.message.now, to.new.sink.now)) }
    ensures refused { IfErr result (RejectsObjectHead (MessageEmits S.goes S.failures)
        (MessageRejects S.goes S.failures to.new.cause) object.old (head_token head.rec head.count)
        (to.old.message.now, to.old.sink.now) (to.new.message.now, to.new.sink.now)) }
{
    object.head(head.rec, head.set, head.count, to)
}

/// Consumes octets of the object.
pub(crate) fn pass_octets<S: StorySink>(
    object: &mut ObjectReader,
    message: &mut MessageReader,
    run: &[u8],
    sink: &mut S,
) -> Result<(), MessageFault>
    requires object { IsSome object.old }
    requires message { IsSome message.old }
    ensures same { OnOk result (object.new ≡ object.old) }
    ensures told { OnOk result (MessageEmits S.goes S.failures (message.old, sink.old) (map ObjectOctet run.now)
        (message.new, sink.new)) }
    ensures before { IfErr result (λ fault. fault.taken < length run.now) }
    ensures refused { IfErr result (λ fault.
        MessageRejects S.goes S.failures (Some fault.cause) (message.old, sink.old)
        (map ObjectOctet (take fault.taken run.now)) (ObjectOctet (slice_index run.now fault.taken))
        (message.new, sink.new)) }
{
    let mut to = ToMessage {
        message,
        sink,
        cause: None,
    };
    let answer = run_object(object, run, &mut to);
    let ToMessage {
        message: _message,
        sink: same,
        cause,
    } = to;
    end_borrow(same);
    match answer {
        Ok(()) => Ok(()),
        Err(ObjectFault::Size { cause: _ }) => unreachable!(),
        Err(ObjectFault::Stopped(stop)) => match cause {
            Some(cause) => Err(MessageFault {
                taken: stop.taken,
                cause,
            }),
            None => unreachable!(),
        },
    }
}

/// Consumes the head of a subfile, or the head of 9:10, which ends the object.
pub(crate) fn pass_head<S: StorySink>(
    object: &mut ObjectReader,
    message: &mut MessageReader,
    head: Head,
    sink: &mut S,
) -> Result<(), TokenFault>
    requires object { IsSome object.old }
    requires message { IsSome message.old }
    ensures takes_calls { OnOk result (IsSome object.new) }
    ensures leads_on { OnOk result (TokenAdvancesObject object.old (head_token head.rec head.count) object.new) }
    ensures told { OnOk result (MessageEmits S.goes S.failures (message.old, sink.old) (events_at head.rec)
        (message.new, sink.new)) }
    ensures refused { IfErr result (ObjectRejectsHead S.goes S.failures object.old head (message.old, sink.old)
        (message.new, sink.new)) }
{
    let mut to = ToMessage {
        message,
        sink,
        cause: None,
    };
    let answer = end_object(object, head, &mut to);
    let ToMessage {
        message: _message,
        sink: same,
        cause,
    } = to;
    end_borrow(same);
    match answer {
        Ok(()) => Ok(()),
        Err(ObjectFault::Size { cause }) => Err(size_fault_on(head, cause)),
        Err(ObjectFault::Stopped(_)) => match cause {
            Some(cause) => Err(message_fault_on(head, cause)),
            None => unreachable!(),
        },
    }
}
