ghost use Rattle.std.specs.Prelude.{◌≡◌};
ghost use Rattle.mh_text.specs.Code.{words_of};

/// The rule that a source, a run, a trace or a text breaks. A variant's name is the code and the
/// word that its error line shows.
#[derive(Clone, Copy, Debug, PartialEq, Eq)]
pub enum Code {
    // Tokens of the source.
    /// A byte begins no token, outside strings and comments.
    L1BadByte,
    /// A tab stands in the leading space of a line on which the indent counts.
    L2TabIndent,
    /// A line goes back to a column that no open block begins at.
    L3BadDedent,
    /// A string is not closed on its line, or a triple one by the end of the source.
    L4OpenString,
    /// A number is malformed, or exceeds 2^127 - 1.
    L5BadNumber,
    // Grammar of the source.
    /// The tokens are no sentence of the grammar of depth at most 200.
    S1Syntax,
    // Elaboration.
    /// A name isn't bound, or a local is read before it is assigned.
    E1UnknownName,
    /// A form of the grammar stands where elaboration doesn't allow it.
    E2NotElaborable,
    /// The number, the names or the kinds of a call's arguments don't fit.
    E3BadArguments,
    /// A range, an index, a slice, a shift, a divisor, a step, a delay or a duration breaks its rule.
    E4BadRange,
    /// More than 127 bits are wanted, or a constant leaves 128 signed bits.
    E5TooWide,
    /// A block returns anything but instances.
    E6BadReturn,
    /// Elaboration executed 1,000,000 statements, and another comes.
    E7ElabLimit,
    /// A call would make 65 calls of functions open at once.
    E8DepthLimit,
    /// The design has too many signals, generators or elements.
    E9SizeLimit,
    /// The kinds of operands don't fit.
    E10KindClash,
    // Conversion.
    /// The source has no request of the kind that the command wants.
    C1NoTop,
    /// A form that has no counterpart in the converted texts.
    C2NotConvertible,
    /// A generator's waits aren't those of a clocked process.
    C3YieldForm,
    /// Two generators drive one signal or one memory.
    C4TwoDrivers,
    /// A clock or an asynchronous reset isn't an input.
    C5ClockNotInput,
    /// A generator reads a clock otherwise than by its edge.
    C6ClockRead,
    /// A combinational generator reads and writes one signal.
    C7Inout,
    /// A combinational generator doesn't assign a signal on every path.
    C8Latch,
    /// A closed walk of signals through combinational generators.
    C9Cycle,
    /// A combinational generator doesn't assign some bit of a signal on every path.
    C10Unassigned,
    /// One variable, or the elements of one memory, have different bounds or kinds.
    C11KindClash,
    /// An inferred range leaves 128 signed bits, or a product is wider than 128.
    C12TooWide,
    /// A wrapping number's range isn't all numbers of its width.
    C13ModRange,
    /// An element of a memory is also used otherwise.
    C14ListShared,
    /// An index may be negative.
    C15NegativeIndex,
    /// An operand of a division or remainder may be negative.
    C16Division,
    /// A shift amount may be negative.
    C17ShiftAmount,
    /// A clock is also a reset.
    C18ClockIsReset,
    // Runs.
    /// An assigned value is outside its bounds.
    X1Range,
    /// An index or a bound of a slice is outside its range.
    X2Index,
    /// An assertion's value is 0.
    X3Assert,
    /// A divisor isn't positive; in VHDL, is zero.
    X4Divide,
    /// A value leaves 128 signed bits.
    X5NumberTooWide,
    /// A shift amount is outside 0 to 127.
    X6Shift,
    /// 10,000 delta cycles were done at one time, and another is due.
    X7DeltaLimit,
    /// 1,000,000 statements were executed without a wait, and another comes.
    X8TurnLimit,
    /// The limit of evaluations at one time is reached, and an event is left.
    X9EvalLimit,
    // Traces and stimuli.
    /// The text is no value change dump of the form that is read.
    V1BadVcd,
    /// A time is less than the one before.
    V2TimeBack,
    /// A change names a code that isn't declared.
    V3UnknownCode,
    /// The stimulus has no known first value of an input.
    M1MissingInput,
    /// A value of the stimulus isn't one that the input can have.
    M2StimRange,
    /// An active clock edge stands beside a change of another input.
    M3StimRace,
    // Texts that are read back.
    /// At some place no token begins.
    G1Lexical,
    /// The tokens are no sentence of the grammar of depth at most 2,000.
    G2Grammar,
    /// A name is undeclared, declared twice, or used against its class.
    G3Undeclared,
    /// A width, a constant select or the lengths of operands break their rule.
    G4Width,
    /// The text declares too many variables, processes or elements.
    G5Size,
    // This program's state.
    /// The design is of no form that this program converts yet.
    N1NotYet,
}

impl Code {
    /// The code and its word, as an error line shows them: `C6 ClockRead`. Takes no memory.
    pub fn words(self) -> &'static str
        ensures { result.now ≡ words_of self }
    {
        match self {
            Code::L1BadByte => "L1 BadByte",
            Code::L2TabIndent => "L2 TabIndent",
            Code::L3BadDedent => "L3 BadDedent",
            Code::L4OpenString => "L4 OpenString",
            Code::L5BadNumber => "L5 BadNumber",
            Code::S1Syntax => "S1 Syntax",
            Code::E1UnknownName => "E1 UnknownName",
            Code::E2NotElaborable => "E2 NotElaborable",
            Code::E3BadArguments => "E3 BadArguments",
            Code::E4BadRange => "E4 BadRange",
            Code::E5TooWide => "E5 TooWide",
            Code::E6BadReturn => "E6 BadReturn",
            Code::E7ElabLimit => "E7 ElabLimit",
            Code::E8DepthLimit => "E8 DepthLimit",
            Code::E9SizeLimit => "E9 SizeLimit",
            Code::E10KindClash => "E10 KindClash",
            Code::C1NoTop => "C1 NoTop",
            Code::C2NotConvertible => "C2 NotConvertible",
            Code::C3YieldForm => "C3 YieldForm",
            Code::C4TwoDrivers => "C4 TwoDrivers",
            Code::C5ClockNotInput => "C5 ClockNotInput",
            Code::C6ClockRead => "C6 ClockRead",
            Code::C7Inout => "C7 Inout",
            Code::C8Latch => "C8 Latch",
            Code::C9Cycle => "C9 Cycle",
            Code::C10Unassigned => "C10 Unassigned",
            Code::C11KindClash => "C11 KindClash",
            Code::C12TooWide => "C12 TooWide",
            Code::C13ModRange => "C13 ModRange",
            Code::C14ListShared => "C14 ListShared",
            Code::C15NegativeIndex => "C15 NegativeIndex",
            Code::C16Division => "C16 Division",
            Code::C17ShiftAmount => "C17 ShiftAmount",
            Code::C18ClockIsReset => "C18 ClockIsReset",
            Code::X1Range => "X1 Range",
            Code::X2Index => "X2 Index",
            Code::X3Assert => "X3 Assert",
            Code::X4Divide => "X4 Divide",
            Code::X5NumberTooWide => "X5 NumberTooWide",
            Code::X6Shift => "X6 Shift",
            Code::X7DeltaLimit => "X7 DeltaLimit",
            Code::X8TurnLimit => "X8 TurnLimit",
            Code::X9EvalLimit => "X9 EvalLimit",
            Code::V1BadVcd => "V1 BadVcd",
            Code::V2TimeBack => "V2 TimeBack",
            Code::V3UnknownCode => "V3 UnknownCode",
            Code::M1MissingInput => "M1 MissingInput",
            Code::M2StimRange => "M2 StimRange",
            Code::M3StimRace => "M3 StimRace",
            Code::G1Lexical => "G1 Lexical",
            Code::G2Grammar => "G2 Grammar",
            Code::G3Undeclared => "G3 Undeclared",
            Code::G4Width => "G4 Width",
            Code::G5Size => "G5 Size",
            Code::N1NotYet => "N1 NotYet",
        }
    }
}
