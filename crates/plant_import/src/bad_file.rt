//! The reasons for which an import file is refused, and the line to which a reason applies.

/// Why a row of a file is faulty. If a row has several faults, the first in this order is reported.
#[derive(Clone, Copy, Debug, PartialEq, Eq)]
pub enum Cause {
    /// The first record is not `seq,moment,tag,event`, or the file has no record.
    Header,
    /// The row does not have four fields.
    FieldCount,
    /// A field is not UTF-8.
    NotUtf8,
    /// The number is not 1 to 12 digits, or begins with 0.
    BadNumber,
    /// The second field is not a moment.
    BadMoment,
    /// The third field is not a tag.
    BadTag,
    /// The event is not one of the six kinds.
    BadEvent,
    /// The row is the 10,001st: a file has at most 10,000.
    TooLong,
    /// The unit has no alarm of this tag.
    TagUnknown,
    /// The moment is after the call's.
    MomentAhead,
    /// Another event has the same number.
    SequenceClash,
    /// An event of a smaller number has a later moment, or one of a greater number an earlier.
    MomentOutOfOrder,
}

/// A file's first faulty line, and why it is faulty. Lines count records from 1, the header's.
#[derive(Clone, Copy, Debug, PartialEq, Eq)]
pub struct BadFile {
    pub line: u64,
    pub cause: Cause,
}
