//! The head of a state, read off the tokens of its text. All of the text is checked and nothing of it
//! is kept, so a large state takes the memory of its text once more, and no tree.
ghost use Rattle.std.specs.Prelude.{◌≡◌, ◌<◌, ◌∷◌, length, true, false, Some, None, IfOk, OnOk, OnErr, IsErrOf, IsTrue, option_and_then, option_map, slice_index, ◌==◌};
ghost use Rattle.basis.specs.Numbers.{within};
ghost use Rattle.basis.specs.declared.numbers.TheConstants.{MAX_SERIAL};
ghost use Rattle.json.specs.Json.{value, items, members};
ghost use Rattle.json.specs.Lex.{tokens};
ghost use Rattle.json.specs.Reads.{token_of};
ghost use Rattle.json.specs.Token.{begin_object};
ghost use Rattle.serde_json.specs.Data.{Data, Items as DataItems, Members, no_members, put};
ghost use Rattle.serde_json.specs.Read.{number_of, number_from, of_json, of_items, of_members, converted};
ghost use Rattle.serde_json.specs.View.{number_view};
ghost use Rattle.docs.specs.Documents.{object_of};
ghost use Rattle.docs.specs.Inner.Heads.{opens_object, object_in, IsPartOf, IsHeadOf, serial_in, lineage_in};

use crate::faults::DocFault;
use basis::Serial;
use basis::rows::MAX_LINEAGE;
use fast_float::Numeral;
use json::{Invalid, Reader, Scratch, Token};
use serde_json::Number;
use simdutf8::basic;

// How deep the values of a state may nest, it being the first.
const MAX_DEPTH: usize = 127;

// What is looked at of a value.
#[derive(Clone, Copy, Drop)]
pub(crate) enum Part<'a> {
    Number(Number),
    Text(&'a str),
    Other,
}

impl<'a> Part<'a> {
    fn serial(&self) -> Option<u64>
        ensures { result ≡ serial_in self.now }
    {
        let Part::Number(number) = self else {
            return None;
        };
        number.as_u64()
    }

    fn lineage(&self) -> Option<&'a str>
        ensures { option_map (λ text. text.now) result ≡ lineage_in self.now }
    {
        match self {
            Part::Text(text) if text.len() <= MAX_LINEAGE => Some(text),
            _ => None,
        }
    }
}

// What counts of the members that were read: where a key's value isn't as it has to be, none.
#[derive(Clone, Copy, Drop)]
pub(crate) struct Head<'a> {
    // The whole number under `serial`, whatever its range.
    pub whole: Option<u64>,
    pub lineage: Option<&'a str>,
}

impl<'a> Head<'a> {
    // The serial, where it is one.
    pub(crate) fn serial(&self) -> Option<Serial>
        ensures { result ≡ option_and_then (within 0 MAX_SERIAL) self.now.whole }
    {
        self.whole.and_then(Serial::new)
    }

    // Of one member more.
    fn with(self, name: &str, part: &Part<'a>) -> Head<'a>
        ensures { (value : Data) (found : Members) → IsPartOf part.now value → IsHeadOf self.entry found
            → IsHeadOf result (put name.now value found) }
    {
        if name == "serial" {
            Head {
                whole: part.serial(),
                lineage: self.lineage,
            }
        } else if name == "lineage" {
            Head {
                whole: self.whole,
                lineage: part.lineage(),
            }
        } else {
            self
        }
    }
}

// The head of the state that the bytes are.
#[tactic(auto, using(crate::proofs::Heading::text_found, crate::proofs::Heading::text_refused, crate::proofs::Heading::no_text))]
pub(crate) fn read_head<'a>(bytes: &'a [u8], scratch: &'a mut Scratch) -> Result<Head<'a>, DocFault>
    ensures ok { IfOk result (λ head. (found : Members) × (object_of bytes.now ≡ Some found)
        × IsHeadOf head found) }
    ensures bad { IsErrOf result DocFault.Bad → object_of bytes.now ≡ None }
    ensures down { IsErrOf result DocFault.Down → 0 < length bytes.now }
{
    match basic::from_utf8(bytes) {
        Ok(text) => read_tokens(text, scratch),
        Err(_) => Err(DocFault::Bad),
    }
}

fn read_tokens<'a>(text: &'a str, scratch: &'a mut Scratch) -> Result<Head<'a>, DocFault>
    ensures ok { IfOk result (λ head. (found : Members)
        × (object_in (tokens text.now) ≡ Some found) × IsHeadOf head found) }
    ensures bad { IsErrOf result DocFault.Bad → object_in (tokens text.now) ≡ None }
    ensures down { IsErrOf result DocFault.Down → 0 < length text.now }
{
    let Ok(mut reader) = Reader::new(text, scratch) else {
        return Err(DocFault::Down);
    };
    match read_root(&mut reader) {
        Ok(head) => Ok(head),
        Err(_) => Err(DocFault::Bad),
    }
}

fn read_root<'a>(reader: &mut Reader<'a>) -> Result<Head<'a>, Invalid>
    ensures ok { IfOk result (λ head. (found : Members) × (object_in reader.old ≡ Some found)
        × IsHeadOf head found) }
    ensures err { OnErr result (object_in reader.old ≡ None) }
{
    open(reader)?;
    let head = read_members(reader, MAX_DEPTH - 1)?;
    if reader.next().is_some() {
        return Err(Invalid);
    }
    Ok(head)
}

// Passes the brace that opens an object.
fn open(reader: &mut Reader<'_>) -> Result<(), Invalid>
    ensures ok { OnOk result (reader.old ≡ begin_object ∷ reader.new) }
    ensures err { OnErr result (object_in reader.old ≡ None) }
{
    let token = reader.next().ok_or(Invalid)?;
    if opens_object(&token) {
        Ok(())
    } else {
        Err(Invalid)
    }
}

fn opens_object(token: &Token<'_>) -> bool
    ensures { result ≡ opens_object (token_of token.now) }
{
    matches!(token, Token::BeginObject)
}

// The members of the state, and the brace behind them.
fn read_members<'a>(reader: &mut Reader<'a>, depth: usize) -> Result<Head<'a>, Invalid>
    ensures ok { IfOk result (λ head. (found : Members)
        × (converted (λ ms. of_members ms no_members)
        (members (value depth) (length reader.old) reader.old) ≡ Some (found, reader.new))
        × IsHeadOf head found) }
    ensures err { OnErr result (converted (λ ms. of_members ms no_members)
        (members (value depth) (length reader.old) reader.old) ≡ None) }
{
    let mut head = Head {
        whole: None,
        lineage: Some(""),
    };
    'members: while let Some(name) = reader.next_key()? {
        let part = pass(reader, depth)?;
        head = head.with(name, &part);
    }
    Ok(head)
}

// Passes over a value, and says what may be looked at of it.
#[cycle(pass)]
#[inline(always)]
fn pass<'a>(reader: &mut Reader<'a>, depth: usize) -> Result<Part<'a>, Invalid>
    ensures ok { IfOk result (λ part. (d : Data)
        × (converted of_json (value depth reader.old) ≡ Some (d, reader.new)) × IsPartOf part d) }
    ensures err { OnErr result (converted of_json (value depth reader.old) ≡ None) }
    ensures shorter { OnOk result (length reader.new < length reader.old) }
{
    let token = reader.next().ok_or(Invalid)?;
    match token {
        Token::String(text) => Ok(Part::Text(text)),
        Token::Number(text) => match read_number(text) {
            Some(number) => Ok(Part::Number(number)),
            None => Err(Invalid),
        },
        Token::Bool(_) => Ok(Part::Other),
        Token::Null => Ok(Part::Other),
        Token::EndObject | Token::EndArray | Token::Key(_) | Token::Bad => Err(Invalid),
        Token::BeginArray => {
            if depth == 0 {
                return Err(Invalid);
            }
            pass_items(reader, depth - 1)?;
            Ok(Part::Other)
        }
        Token::BeginObject => {
            if depth == 0 {
                return Err(Invalid);
            }
            pass_members(reader, depth - 1)?;
            Ok(Part::Other)
        }
    }
}

#[cycle(pass)]
#[inline(never)]
fn pass_items(reader: &mut Reader<'_>, depth: usize) -> Result<(), Invalid>
    ensures ok { OnOk result ((found : DataItems)
        × (converted of_items (items (value depth) (length reader.old) reader.old)
        ≡ Some (found, reader.new))) }
    ensures err { OnErr result
        (converted of_items (items (value depth) (length reader.old) reader.old) ≡ None) }
    ensures shorter { OnOk result (length reader.new < length reader.old) }
{
    'items: while !reader.take_end_array() {
        pass(reader, depth)?;
    }
    Ok(())
}

#[cycle(pass)]
#[inline(never)]
fn pass_members(reader: &mut Reader<'_>, depth: usize) -> Result<(), Invalid>
    ensures ok { OnOk result ((found : Members)
        × (converted (λ ms. of_members ms no_members)
        (members (value depth) (length reader.old) reader.old) ≡ Some (found, reader.new))) }
    ensures err { OnErr result (converted (λ ms. of_members ms no_members)
        (members (value depth) (length reader.old) reader.old) ≡ None) }
    ensures shorter { OnOk result (length reader.new < length reader.old) }
{
    'members: while let Some(_) = reader.next_key()? {
        pass(reader, depth)?;
    }
    Ok(())
}

// The number that a token writes, where a `Number` holds it.
fn read_number(text: &str) -> Option<Number>
    ensures { option_map number_view result ≡ number_of text.now }
{
    let bytes = text.as_bytes();
    if has_minus(bytes) {
        negative(&Numeral::scan(&bytes[1..]))
    } else {
        unsigned(&Numeral::scan(bytes))
    }
}

fn has_minus(bytes: &[u8]) -> bool
    ensures value { result ≡ (slice_index bytes.now 0 == 45) }
    ensures len { IsTrue result → 0 < length bytes.now }
{
    !bytes.is_empty() && bytes[0] == b'-'
}

fn unsigned(numeral: &Numeral<'_>) -> Option<Number>
    ensures { option_map number_view result ≡ number_from false numeral.now }
{
    match numeral.to_u64() {
        Some(n) => Some(Number::from(n)),
        None => Number::from_f64(numeral.to_float::<f64>(false)),
    }
}

fn negative(numeral: &Numeral<'_>) -> Option<Number>
    ensures { option_map number_view result ≡ number_from true numeral.now }
{
    if let Some(n) = numeral.to_i64(true) {
        if n < 0 {
            return Some(Number::from(n));
        }
    }
    Number::from_f64(numeral.to_float::<f64>(true))
}
