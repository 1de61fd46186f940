// The numbered questions of the papers: the first one that fails is what a call is refused with.
ghost use Rattle.std.specs.Prelude.{◌≡◌};
ghost use Rattle.record_decoded.specs.Refusals.{question_number};

#[derive(Clone, Copy, Debug, PartialEq, Eq)]
pub enum Question {
    // Of a record: 10 is not asked.
    Bytes = 1,
    Processors = 2,
    Lines = 3,
    Attribute = 4,
    Instructions = 5,
    Kind = 6,
    Size = 7,
    Address = 8,
    SpareData = 9,
    Operations = 11,
    Pairs = 12,
    Pair = 13,
    PairOrder = 14,
    End = 15,

    // Of an order.
    OrderLength = 16,
    OrderEntries = 17,

    // Of a buffer and a saved position.
    BufferLength = 18,
    SavedLength = 19,
    SavedEntries = 20,
    SavedPosition = 21,

    // Of a table.
    TableLength = 22,

    // Of sections, and of the buffer for a record.
    WholeEntries = 23,
    EntryProcessors = 24,
    RecordRoom = 25,

    // Of a record again.
    SemaphoreLine = 26,
    LinesOfAccess = 27,
}

impl Question {
    // The number that the papers give it.
    pub fn number(self) -> u8
        ensures { result ≡ question_number self }
    {
        self as u8
    }
}
