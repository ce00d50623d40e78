//! The bits of parts.

ghost use Rattle.std.specs.Prelude.{◌≡◌, ◌++◌, false, length, option_map, replicate, IfOk, OnOk};
ghost use Rattle.res_types.specs.Texts.{Adds};
ghost use Rattle.res_types.specs.Reading.{Gives};
ghost use Rattle.res_types.specs.Writing.{case_in, elements_in, fits, if_fits, is_keyed, number_bits, number_of_count, with_bits, write, write_elements, write_list, write_marked, write_number, write_text, write_whole_text};

use crate::bits::{push_bytes, push_number};
use crate::field::{Count, Field, Key, Mark, NumberField, TextForm};
use crate::stop::Stop;
use crate::text::push_text;
use crate::value::Part;
use std::alloc::AllocError;

/// What the bits of an element have.
#[derive(Clone, Copy)]
enum Element {
    /// At least one bit.
    Any,
    /// At least one bit, at least as many as the mark, which they don't begin with.
    Unlike(Mark),
}

impl Element {
    /// Whether these are the bits of one.
    #[tactic(auto, unfolding(crate::specs::Writing::fits))]
    fn is_of(self, bits: &[bool]) -> bool
        ensures { result ≡ fits self bits.now }
    {
        match self {
            Element::Any => !bits.is_empty(),
            Element::Unlike(mark) => {
                let least = (mark.width as usize).max(1);
                least <= bits.len() && mark.after(bits).is_none()
            }
        }
    }
}

/// Adds a number in so many bits, if it has them.
#[tactic(auto, unfolding(crate::specs::Writing::number_bits))]
fn push_fitting(bits: &mut Vec<bool>, width: u8, number: u32) -> Result<bool, AllocError>
    ensures { IfOk result (λ done. Adds bits.old.items bits.new.items done (number_bits width number)) }
{
    if width > 32 || (number as u64) >> width != 0 {
        return Ok(false);
    }
    push_number(bits, width, number)?;
    Ok(true)
}

/// The bits of a number.
#[tactic(auto, unfolding(crate::specs::Writing::write_number))]
fn write_number<'a>(
    field: &NumberField,
    bits: &mut Vec<bool>,
    parts: &'a [Part],
) -> Result<&'a [Part], Stop>
    ensures { Gives (λ rest. (bits.new.items, rest.now)) result (with_bits bits.old.items (write_number field.now parts.now)) }
{
    let (number, rest) = match (field.only, parts) {
        (Some(only), _) => (only, parts),
        (None, [Part::Number(number), rest @ ..]) => (*number, rest),
        (None, _) => return Err(Stop::Unfit(parts.len())),
    };
    if push_fitting(bits, field.width, number)? {
        Ok(rest)
    } else {
        Err(Stop::Unfit(parts.len()))
    }
}

/// The bits of a text.
#[tactic(auto, unfolding(crate::specs::Writing::write_text, crate::specs::Texts::text_bits))]
fn write_text<'a>(
    form: TextForm,
    bits: &mut Vec<bool>,
    parts: &'a [Part],
) -> Result<&'a [Part], Stop>
    ensures { Gives (λ rest. (bits.new.items, rest.now)) result (with_bits bits.old.items (write_text form parts.now)) }
{
    match parts {
        [Part::Text(text), rest @ ..] => {
            if push_text(bits, form, text.as_slice())? {
                Ok(rest)
            } else {
                Err(Stop::Unfit(parts.len()))
            }
        }
        _ => Err(Stop::Unfit(parts.len())),
    }
}

/// The bits of a text of any length.
#[tactic(auto, unfolding(crate::specs::Writing::write_whole_text))]
pub(crate) fn write_whole_text<'a>(
    bits: &mut Vec<bool>,
    parts: &'a [Part],
) -> Result<&'a [Part], Stop>
    ensures { Gives (λ rest. (bits.new.items, rest.now)) result (with_bits bits.old.items (write_whole_text parts.now)) }
{
    match parts {
        [Part::Text(text), rest @ ..] => {
            push_bytes(bits, text.as_slice())?;
            Ok(rest)
        }
        _ => Err(Stop::Unfit(parts.len())),
    }
}

/// How many elements the parts begin with, and the parts after that.
fn elements_in(parts: &[Part]) -> Result<(usize, &[Part]), Stop>
    ensures { Gives (λ x. (x.0, x.1.now)) result (elements_in parts.now) }
{
    match parts {
        [Part::Elements(count), rest @ ..] => Ok((*count, rest)),
        _ => Err(Stop::Unfit(parts.len())),
    }
}

/// Adds zeros.
#[tactic(auto, using(std::proofs::lemmas::List::replicate_more))]
fn push_zeros(bits: &mut Vec<bool>, count: usize) -> Result<(), AllocError>
    ensures { OnOk result (bits.new.items ≡ bits.old.items ++ replicate count false) }
{
    for _turn in 0..count {
        bits.push(false)?;
    }
    Ok(())
}

impl Count {
    /// The number that counts so many elements, if one does.
    fn number(self, elements: usize) -> Option<u32>
        ensures { result ≡ number_of_count self elements }
    {
        let greatest = self.size.greatest();
        if elements > greatest as usize {
            None
        } else if !self.less_one {
            Some(elements as u32)
        } else if elements == 0 {
            Some(greatest)
        } else {
            Some(elements as u32 - 1)
        }
    }
}

impl Key {
    /// Whether these are the bits of the case, or of another.
    #[tactic(auto, unfolding(crate::specs::Writing::is_keyed))]
    fn is_fitting(&self, chosen: bool, bits: &[bool]) -> bool
        ensures { result ≡ is_keyed self.now chosen bits.now }
    {
        self.offset as usize + self.width as usize <= bits.len() && self.is_in(bits) == chosen
    }
}

/// Whether the parts begin with the case or another, and the parts after that.
fn case_in(parts: &[Part]) -> Result<(bool, &[Part]), Stop>
    ensures { Gives (λ x. (x.0, x.1.now)) result (case_in parts.now) }
{
    match parts {
        [Part::Case(chosen), rest @ ..] => Ok((*chosen, rest)),
        _ => Err(Stop::Unfit(parts.len())),
    }
}

/// Adds the bits of one element, which are so. The parts after it.
#[cycle(writing)]
#[tactic(auto, using(crate::proofs::WritingSteps::fits_on))]
fn write_element<'a>(
    body: &Field,
    element: Element,
    bits: &mut Vec<bool>,
    parts: &'a [Part],
) -> Result<&'a [Part], Stop>
    ensures { Gives (λ rest. (bits.new.items, rest.now)) result (with_bits bits.old.items (if_fits (fits element) (length parts.now) (write body.now (length bits.old.items) parts.now))) }
{
    let start = bits.len();
    let rest = write(body, bits, parts)?;
    if element.is_of(&bits.as_slice()[start..]) {
        Ok(rest)
    } else {
        Err(Stop::Unfit(parts.len()))
    }
}

/// Adds the bits of so many elements. The parts after them.
#[cycle(writing)]
fn write_elements<'a>(
    body: &Field,
    element: Element,
    count: usize,
    bits: &mut Vec<bool>,
    parts: &'a [Part],
) -> Result<&'a [Part], Stop>
    ensures { Gives (λ rest. (bits.new.items, rest.now)) result (with_bits bits.old.items (write_elements (write body.now) (fits element) count (length bits.old.items) parts.now)) }
{
    let mut rest = parts;
    for _turn in 0..count {
        rest = write_element(body, element, bits, rest)?;
    }
    Ok(rest)
}

/// Adds the bits of elements and the mark after them. The parts after them.
#[cycle(writing)]
#[tactic(auto, unfolding(crate::specs::Writing::write_marked))]
fn write_marked<'a>(
    mark: Mark,
    body: &Field,
    bits: &mut Vec<bool>,
    parts: &'a [Part],
) -> Result<&'a [Part], Stop>
    ensures { Gives (λ rest. (bits.new.items, rest.now)) result (with_bits bits.old.items (write_marked mark (write body.now) (length bits.old.items) parts.now)) }
{
    let (elements, rest) = elements_in(parts)?;
    let rest = write_elements(body, Element::Unlike(mark), elements, bits, rest)?;
    if push_fitting(bits, mark.width, mark.value)? {
        Ok(rest)
    } else {
        Err(Stop::Unfit(rest.len()))
    }
}

/// Adds the bits of a case, or of another, whose bits have the key or haven't. The parts after them.
#[cycle(writing)]
#[tactic(auto, using(crate::proofs::WritingSteps::fits_on))]
fn write_side<'a>(
    key: &Key,
    chosen: bool,
    fields: &Field,
    bits: &mut Vec<bool>,
    left: usize,
    parts: &'a [Part],
) -> Result<&'a [Part], Stop>
    ensures { Gives (λ rest. (bits.new.items, rest.now)) result (with_bits bits.old.items (if_fits (is_keyed key.now chosen) left (write fields.now (length bits.old.items) parts.now))) }
{
    let start = bits.len();
    let rest = write(fields, bits, parts)?;
    if key.is_fitting(chosen, &bits.as_slice()[start..]) {
        Ok(rest)
    } else {
        Err(Stop::Unfit(left))
    }
}

/// Adds the bits of the first parts as these fields. The parts after them.
#[cycle(writing)]
#[tactic(auto, unfolding(crate::specs::Writing::write_case, crate::specs::Writing::write_counted, crate::specs::Writing::count_bits), using(crate::proofs::WritingSteps::writes_on, crate::proofs::WritingSteps::counts_written))]
pub(crate) fn write<'a>(
    field: &Field,
    bits: &mut Vec<bool>,
    parts: &'a [Part],
) -> Result<&'a [Part], Stop>
    ensures { Gives (λ rest. (bits.new.items, rest.now)) result (with_bits bits.old.items (write field.now (length bits.old.items) parts.now)) }
{
    match field {
        Field::Nothing => Ok(parts),
        Field::Then(first, second) => {
            let rest = write(first, bits, parts)?;
            write(second, bits, rest)
        }
        Field::Number(field) => write_number(field, bits, parts),
        Field::Text(form, _) => write_text(*form, bits, parts),
        Field::Zeros(zeros) => {
            let count = zeros.count(bits.len());
            push_zeros(bits, count)?;
            Ok(parts)
        }
        Field::Repeated(count, body) => {
            write_elements(body, Element::Any, *count as usize, bits, parts)
        }
        Field::Counted(count, between, body) => {
            let (elements, rest) = elements_in(parts)?;
            let Some(number) = count.number(elements) else {
                return Err(Stop::Unfit(parts.len()));
            };
            push_number(bits, count.size.width(), number)?;
            let rest = write(between, bits, rest)?;
            write_elements(body, Element::Any, elements, bits, rest)
        }
        Field::Marked(mark, body) => write_marked(*mark, body, bits, parts),
        Field::Case(key, chosen, other) => match case_in(parts)? {
            (true, rest) => write_side(key, true, chosen, bits, parts.len(), rest),
            (false, rest) => write_side(key, false, other, bits, parts.len(), rest),
        },
        Field::NoCase => Err(Stop::Unfit(parts.len())),
    }
}

/// Adds the bits of elements, whose number is before them.
#[tactic(auto, unfolding(crate::specs::Writing::write_list))]
pub(crate) fn write_list<'a>(
    body: &Field,
    bits: &mut Vec<bool>,
    parts: &'a [Part],
) -> Result<&'a [Part], Stop>
    ensures { Gives (λ rest. (bits.new.items, rest.now)) result (with_bits bits.old.items (write_list (write body.now) (length bits.old.items) parts.now)) }
{
    let (elements, rest) = elements_in(parts)?;
    write_elements(body, Element::Any, elements, bits, rest)
}
