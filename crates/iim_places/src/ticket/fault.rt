//! Why a ticket is rejected.

ghost use Rattle.std.specs.Prelude.{◌≡◌};
ghost use Rattle.iim_places.specs.Format.Faults.{ticket_fault_number, ticket_fault_name};

use thiserror::Error;

/// Why no unpacker can be restored from a ticket.
#[derive(Clone, Copy, Debug, PartialEq, Eq, Error)]
pub enum TicketFault {
    /// The octets do not have the form of a ticket (100).
    #[error("the octets have not the form of a ticket")]
    TicketForm,
    /// The ticket has a version that is not supported (101).
    #[error("the ticket is of another version")]
    TicketVersion,
    /// The octets have the form of a ticket, but no valid or incomplete envelope reaches the
    /// encoded position (102).
    #[error("the ticket tells a place where no envelope can be")]
    Impossible,
    /// The datasets of records 1 and 2, including one in progress, have more octets than the limits
    /// allow (50).
    #[error("the ticket's datasets have more octets than the limits allow")]
    HeaderFull,
    /// There are more datasets of records 1 and 2 than the limits allow (51).
    #[error("the ticket has more datasets than the limits allow")]
    TooManyFields,
    /// Memory allocation failed (70).
    #[error("memory was refused")]
    OutOfMemory,
}

impl TicketFault {
    /// Returns the number of the cause, as it is printed.
    pub fn number(self) -> u8
        ensures { result ≡ ticket_fault_number self }
    {
        match self {
            TicketFault::TicketForm => 100,
            TicketFault::TicketVersion => 101,
            TicketFault::Impossible => 102,
            TicketFault::HeaderFull => 50,
            TicketFault::TooManyFields => 51,
            TicketFault::OutOfMemory => 70,
        }
    }

    /// Returns the name of the cause, as it is printed.
    pub fn name(self) -> &'static str
        ensures { result.now ≡ ticket_fault_name self }
    {
        match self {
            TicketFault::TicketForm => "TicketForm",
            TicketFault::TicketVersion => "TicketVersion",
            TicketFault::Impossible => "Impossible",
            TicketFault::HeaderFull => "HeaderFull",
            TicketFault::TooManyFields => "TooManyFields",
            TicketFault::OutOfMemory => "OutOfMemory",
        }
    }
}
