//! What can go wrong, under the number by which it is reported.

ghost use Rattle.std.specs.Prelude.{◌≡◌};
ghost use Rattle.meaning.specs.Fault.{fault, fault_at, number};
ghost use Rattle.meaning.specs.FaultRecords.{fault_of};

use crate::name::Name;
use crate::tree::Span;

/// Why a call, or a rendering at some place, did not succeed.
#[derive(Clone, Copy, PartialEq, Eq, Debug)]
pub enum Cause {
    // a template's bytes, and its program
    BadSource = 1,
    Malformed = 2,
    Misplaced = 3,
    TooDeep = 4,
    TooManyInstructions = 5,
    // adding, removing and loading, and the start of a rendering
    BadName = 6,
    TemplatesFull = 7,
    UnknownName = 8,
    IncludeDepthTooHigh = 9,
    // members and scopes
    NotInScope = 10,
    NoSuchKey = 11,
    NoSuchIndex = 12,
    WrongAccess = 13,
    NoParts = 14,
    // a loop's start
    NotIterable = 15,
    WrongLoopNames = 16,
    // callables
    UnknownFunction = 17,
    UnknownEmitted = 18,
    FormatterInside = 19,
    FormatterCount = 20,
    // the hosts, the templates, the store
    Refused = 21,
    UnknownTemplate = 22,
    TooManyOpen = 23,
    SinkStopped = 24,
    StoreFull = 25,
    TextTooLong = 26,
}

impl Cause {
    /// The number by which the cause is reported. As a conversion it would not say which number it is.
    pub fn number(self) -> u8
        ensures { result ≡ number self }
    {
        self as u8
    }
}

/// A fault in all its parts.
#[derive(Clone, Copy)]
pub struct Fault {
    pub cause: Cause,
    /// The template in which it lies; none for a fault of the whole call.
    pub template: Option<Name>,
    pub span: Option<Span>,
    /// 0 where the cause has no detail.
    pub detail: usize,
}

impl Fault {
    /// A fault of the whole call, in no template.
    pub fn of_call(cause: Cause, detail: usize) -> Fault
        ensures { fault_of result ≡ fault cause detail }
    {
        Fault {
            cause,
            template: None,
            span: None,
            detail,
        }
    }

    /// A fault at a span of a template that is not named yet.
    pub fn at(cause: Cause, span: Span, detail: usize) -> Fault
        ensures { fault_of result ≡ fault_at cause span detail }
    {
        Fault {
            cause,
            template: None,
            span: Some(span),
            detail,
        }
    }
}
