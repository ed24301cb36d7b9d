//! The lines of a trace, told by their words.

ghost use Rattle.std.specs.Prelude.{◌≡◌, ◌<◌, length};
ghost use Rattle.texts.specs.Words as spaced;
ghost use Rattle.vendor_tool.specs.TraceLines as spec;
ghost use Rattle.vendor_tool.specs.Replies as replies;

use texts::{is_decimal, read_hex_byte, read_hex_word, split_word};

/// The kind of a line: that of its event, or of the end that it tells.
#[derive(Clone, Copy, Debug, PartialEq, Eq)]
pub enum Kind {
    Resume,
    Close,
    Handler,
    Leave,
    Hide,
    Irq,
    Enter,
    Reti,
    Protect,
    Out,
    Stop,
    Stopped,
    Inside,
    Outside,
}

/// A word that labels what follows it.
#[derive(Clone, Copy, Debug, PartialEq, Eq)]
pub enum Label {
    End,
    Pc,
    Vector,
    From,
    Addr,
    Module,
}

/// What a word of a line is.
#[derive(Clone, Copy, Debug, PartialEq, Eq)]
pub enum Word {
    /// A decimal of any size.
    Number,
    /// Two hexadecimal digits.
    Byte,
    /// Four hexadecimal digits.
    Address,
    /// The name of a rule of access.
    RuleName,
    /// The word that names this kind of line.
    Keyword(Kind),
    /// This label.
    Mark(Label),
}

/// The kind of a line without its LF, where it has one of the forms of a trace's lines.
#[tactic(auto, unfolding(crate::specs::TraceLines::kind_of))]
pub fn kind_of(line: &[u8]) -> Option<Kind>
    ensures kind { result ≡ spec.kind_of line.now }
{
    for kind in line_kinds() {
        if has_form(line, kind_form(*kind)) {
            return Some(*kind);
        }
    }
    None
}

/// Whether this is an end line.
pub fn ends(kind: Kind) -> bool
    ensures { result ≡ replies.ends kind }
{
    matches!(kind, Kind::Stopped | Kind::Inside | Kind::Outside)
}

/// Whether a line of this kind tells of a byte that was sent.
pub fn tells_byte(kind: Kind) -> bool
    ensures { result ≡ replies.tells_byte kind }
{
    matches!(kind, Kind::Out)
}

fn line_kinds() -> &'static [Kind]
    ensures { result.now ≡ spec.line_kinds }
{
    &[
        Kind::Resume,
        Kind::Close,
        Kind::Handler,
        Kind::Leave,
        Kind::Hide,
        Kind::Irq,
        Kind::Enter,
        Kind::Reti,
        Kind::Protect,
        Kind::Out,
        Kind::Stop,
        Kind::Stopped,
        Kind::Inside,
        Kind::Outside,
    ]
}

// The words of a line of this kind: the event's, or the end line's.
fn kind_form(kind: Kind) -> &'static [Word]
    ensures { result.now ≡ spec.kind_form kind }
{
    match kind {
        Kind::Resume => &[Word::Number, Word::Keyword(Kind::Resume), Word::Number],
        Kind::Close => &[Word::Number, Word::Keyword(Kind::Close), Word::Number],
        Kind::Handler => handler_form(),
        Kind::Leave => leave_form(),
        Kind::Hide => hide_form(),
        Kind::Irq => &[Word::Number, Word::Keyword(Kind::Irq), Word::Number],
        Kind::Enter => enter_form(),
        Kind::Reti => &[Word::Number, Word::Keyword(Kind::Reti)],
        Kind::Protect => &[Word::Number, Word::Keyword(Kind::Protect), Word::Number],
        Kind::Out => &[Word::Number, Word::Keyword(Kind::Out), Word::Byte],
        Kind::Stop => stop_form(),
        Kind::Stopped => stopped_form(),
        Kind::Inside => inside_form(),
        Kind::Outside => outside_form(),
    }
}

fn handler_form() -> &'static [Word]
    ensures { result.now ≡ spec.kind_form (Kind.Handler) }
{
    &[
        Word::Number,
        Word::Keyword(Kind::Handler),
        Word::Mark(Label::Pc),
        Word::Address,
    ]
}

fn leave_form() -> &'static [Word]
    ensures { result.now ≡ spec.kind_form (Kind.Leave) }
{
    &[
        Word::Number,
        Word::Keyword(Kind::Leave),
        Word::Number,
        Word::Mark(Label::Pc),
        Word::Address,
    ]
}

fn hide_form() -> &'static [Word]
    ensures { result.now ≡ spec.kind_form (Kind.Hide) }
{
    &[
        Word::Number,
        Word::Keyword(Kind::Hide),
        Word::Number,
        Word::Mark(Label::Vector),
        Word::Number,
    ]
}

fn enter_form() -> &'static [Word]
    ensures { result.now ≡ spec.kind_form (Kind.Enter) }
{
    &[
        Word::Number,
        Word::Keyword(Kind::Enter),
        Word::Number,
        Word::Mark(Label::From),
        Word::Number,
    ]
}

fn stop_form() -> &'static [Word]
    ensures { result.now ≡ spec.kind_form (Kind.Stop) }
{
    &[
        Word::Number,
        Word::Keyword(Kind::Stop),
        Word::RuleName,
        Word::Mark(Label::Pc),
        Word::Address,
        Word::Mark(Label::Addr),
        Word::Address,
        Word::Mark(Label::Module),
        Word::Number,
    ]
}

// The end line's words where the machine is stopped.
fn stopped_form() -> &'static [Word]
    ensures { result.now ≡ spec.kind_form (Kind.Stopped) }
{
    &[
        Word::Mark(Label::End),
        Word::Number,
        Word::Keyword(Kind::Stopped),
    ]
}

// The end line's words where a module is active.
fn inside_form() -> &'static [Word]
    ensures { result.now ≡ spec.kind_form (Kind.Inside) }
{
    &[
        Word::Mark(Label::End),
        Word::Number,
        Word::Keyword(Kind::Inside),
        Word::Number,
    ]
}

// The end line's words where no module is active, with the sixteen registers.
fn outside_form() -> &'static [Word]
    ensures { result.now ≡ spec.kind_form (Kind.Outside) }
{
    &[
        Word::Mark(Label::End),
        Word::Number,
        Word::Keyword(Kind::Outside),
        Word::Address,
        Word::Address,
        Word::Address,
        Word::Address,
        Word::Address,
        Word::Address,
        Word::Address,
        Word::Address,
        Word::Address,
        Word::Address,
        Word::Address,
        Word::Address,
        Word::Address,
        Word::Address,
        Word::Address,
        Word::Address,
    ]
}

// Whether these are all the words of the line.
fn has_form(line: &[u8], form: &[Word]) -> bool
    ensures { result ≡ spec.all_fit form.now (spaced.words line.now) }
{
    let [word, more @ ..] = form else {
        return false;
    };
    match split_word(line) {
        None => fits_word(*word, line) && more.is_empty(),
        Some((first, rest)) => fits_word(*word, first) && has_form(rest, more),
    }
}

fn fits_word(word: Word, text: &[u8]) -> bool
    ensures { result ≡ spec.fits_word word text.now }
{
    match word {
        Word::Number => is_decimal(text),
        Word::Byte => read_hex_byte(text).is_some(),
        Word::Address => read_hex_word(text).is_some(),
        Word::RuleName => is_rule_name(text),
        Word::Keyword(kind) => text == keyword(kind).as_bytes(),
        Word::Mark(label) => text == label_text(label).as_bytes(),
    }
}

fn is_rule_name(text: &[u8]) -> bool
    ensures { result ≡ spec.fits_word (Word.RuleName) text.now }
{
    text == b"FetchNotEntry".as_slice()
        || text == b"FetchData".as_slice()
        || text == b"ReadData".as_slice()
        || text == b"WriteData".as_slice()
        || text == b"WriteText".as_slice()
        || text == b"Reenter".as_slice()
        || text == b"RetiInside".as_slice()
        || text == b"Straddle".as_slice()
        || text == b"Misaligned".as_slice()
        || text == b"Illegal".as_slice()
        || text == b"FetchDevice".as_slice()
}

fn keyword(kind: Kind) -> &'static str
    ensures { result.now ≡ spec.keyword kind }
{
    match kind {
        Kind::Resume => "resume",
        Kind::Close => "close",
        Kind::Handler => "handler",
        Kind::Leave => "leave",
        Kind::Hide => "hide",
        Kind::Irq => "irq",
        Kind::Enter => "enter",
        Kind::Reti => "reti",
        Kind::Protect => "protect",
        Kind::Out => "out",
        Kind::Stop => "stop",
        Kind::Stopped => "stopped",
        Kind::Inside => "inside",
        Kind::Outside => "outside",
    }
}

fn label_text(label: Label) -> &'static str
    ensures { result.now ≡ spec.label_text label }
{
    match label {
        Label::End => "end",
        Label::Pc => "pc",
        Label::Vector => "vector",
        Label::From => "from",
        Label::Addr => "addr",
        Label::Module => "module",
    }
}
