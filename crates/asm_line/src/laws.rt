//! The laws of a line, each the contract of a function that does nothing.
ghost use Rattle.asm_line.specs.Laws.{ShownIsRead, WordsAreMeant, WordsComeBack};

/// The words of each instruction mean that instruction, with 0 for names.
pub fn words_are_meant()
    ensures words { WordsAreMeant }
{}

/// What `show` writes of an instruction that has no operand relative to PC and is no jump, at any address, is read as
/// that instruction, which its words mean. The words of any instruction are those that it was decoded from: such lines
/// of the disassembler are assembled to what was disassembled.
pub fn shown_is_read()
    ensures read { ShownIsRead }
    ensures words { WordsComeBack }
{}
