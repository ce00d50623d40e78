//! Bits are read as the parts of fields.

ghost use Rattle.std.specs.Prelude.{◌≡◌, ◌<◌, ◌+◌, ◌-◌, [], not, if◌then◌else◌, length, nat_le, option_map};
ghost use Rattle.std.specs.List.{list_all};
ghost use Rattle.res_types.specs.Reading.{Gives, after_end, after_mark, after_zeros, count_at, elements_of, gap, has_key, least_of, read, read_elements, read_list, read_number, read_text, read_whole_list, read_whole_text, read_zeros, with_found, with_front, with_least, zero_count};

use crate::bits::{bytes_at, number_at};
use crate::field::{Count, Field, Key, Mark, NumberField, TextForm, Zeros};
use crate::stop::Stop;
use crate::text::text_at;
use crate::value::{Part, Text};
use std::alloc::Global;

/// Where elements end.
#[derive(Clone, Copy)]
pub(crate) enum End {
    /// Where the mark is.
    At(Mark),
    /// Where no bits are left.
    Whole,
}

/// How many bits are before the next multiple.
fn gap(multiple: usize, at: usize) -> usize
    requires { 0 < multiple }
    ensures { result ≡ gap multiple at }
{
    (multiple - at % multiple) % multiple
}

impl Zeros {
    /// How many zeros there are after so many bits.
    pub(crate) fn count(self, at: usize) -> usize
        ensures { result ≡ zero_count self at }
    {
        match self {
            Zeros::Fill(count) => count as usize,
            Zeros::AlignByte => gap(8, at),
            Zeros::AlignWord => gap(16, at),
            Zeros::AlignLong => gap(32, at),
        }
    }
}

/// Whether each bit is 0.
fn are_zeros(bits: &[bool]) -> bool
    ensures { result ≡ list_all not bits.now }
{
    bits.iter().all(|bit| !*bit)
}

/// The bits after so many zeros.
#[tactic(auto, unfolding(crate::specs::Reading::after_zeros))]
fn after_zeros(count: usize, bits: &[bool]) -> Option<&[bool]>
    ensures { option_map (λ rest. rest.now) result ≡ after_zeros count bits.now }
{
    if count <= bits.len() && are_zeros(&bits[..count]) {
        Some(&bits[count..])
    } else {
        None
    }
}

impl Count {
    /// How many elements this number says.
    fn elements(self, number: u32) -> usize
        ensures { result ≡ elements_of self number }
    {
        if !self.less_one {
            number as usize
        } else if number >= self.size.greatest() {
            0
        } else {
            number as usize + 1
        }
    }

    /// How many elements there are, and the bits after the count.
    #[tactic(auto, unfolding(crate::specs::Reading::count_at))]
    fn at(self, bits: &[bool]) -> Option<(usize, &[bool])>
        ensures { option_map (λ x. (x.0, x.1.now)) result ≡ count_at self bits.now }
    {
        let (number, rest) = number_at(self.size.width(), bits)?;
        Some((self.elements(number), rest))
    }
}

impl Mark {
    /// The bits after the mark, if they begin with it.
    #[tactic(auto, unfolding(crate::specs::Reading::after_mark))]
    pub(crate) fn after(self, bits: &[bool]) -> Option<&[bool]>
        ensures { option_map (λ rest. rest.now) result ≡ after_mark self bits.now }
    {
        let (number, rest) = number_at(self.width, bits)?;
        if number == self.value {
            Some(rest)
        } else {
            None
        }
    }
}

impl End {
    /// The bits after the end, if they begin with it.
    fn after(self, bits: &[bool]) -> Option<&[bool]>
        ensures { option_map (λ rest. rest.now) result ≡ after_end self bits.now }
    {
        match self {
            End::At(mark) => mark.after(bits),
            End::Whole if bits.is_empty() => Some(bits),
            End::Whole => None,
        }
    }

    /// How many bits an element has at least.
    fn least(self) -> usize
        ensures { result ≡ least_of self }
    {
        match self {
            End::At(mark) => (mark.width as usize).max(1),
            End::Whole => 1,
        }
    }
}

impl Key {
    /// Whether the bits have the key in its place.
    #[tactic(auto, unfolding(crate::specs::Reading::has_key))]
    pub(crate) fn is_in(&self, bits: &[bool]) -> bool
        ensures { result ≡ has_key self.now bits.now }
    {
        let start = bits.len().min(self.offset as usize);
        match number_at(self.width, &bits[start..]) {
            Some((number, _)) => number == self.value,
            None => false,
        }
    }

    /// How many bits a case has at least.
    fn least(&self) -> usize
        ensures { result ≡ self.now.offset + self.now.width }
    {
        self.offset as usize + self.width as usize
    }
}

/// No field begins with these bits.
fn unfit(bits: &[bool]) -> Stop
    ensures { result ≡ Stop.Unfit (length bits.now) }
{
    Stop::Unfit(bits.len())
}

/// A number.
#[tactic(auto, unfolding(crate::specs::Reading::read_number))]
fn read_number<'a>(
    field: &NumberField,
    bits: &'a [bool],
    parts: &mut Vec<Part>,
) -> Result<&'a [bool], Stop>
    ensures { Gives (λ rest. (parts.new.items, rest.now)) result (with_front parts.old.items (read_number field.now bits.now)) }
{
    let Some((number, rest)) = number_at(field.width, bits) else {
        return Err(unfit(bits));
    };
    match field.only {
        None => {
            parts.push(Part::Number(number))?;
            Ok(rest)
        }
        Some(only) if number == only => Ok(rest),
        Some(_) => Err(unfit(bits)),
    }
}

/// A text.
#[tactic(auto, unfolding(crate::specs::Reading::read_text))]
fn read_text<'a>(
    alloc: Global,
    form: TextForm,
    bits: &'a [bool],
    parts: &mut Vec<Part>,
) -> Result<&'a [bool], Stop>
    ensures { Gives (λ rest. (parts.new.items, rest.now)) result (with_front parts.old.items (read_text form bits.now)) }
{
    match text_at(alloc, form, bits)? {
        Some((text, rest)) => {
            parts.push(Part::Text(Text::new(text)))?;
            Ok(rest)
        }
        None => Err(unfit(bits)),
    }
}

/// A text that goes on to the last whole byte.
#[tactic(auto, unfolding(crate::specs::Reading::read_whole_text))]
pub(crate) fn read_whole_text<'a>(
    alloc: Global,
    bits: &'a [bool],
    parts: &mut Vec<Part>,
) -> Result<&'a [bool], Stop>
    ensures { Gives (λ rest. (parts.new.items, rest.now)) result (with_front parts.old.items (read_whole_text bits.now)) }
{
    match bytes_at(alloc, bits.len() / 8, bits)? {
        Some((text, rest)) => {
            parts.push(Part::Text(Text::new(text)))?;
            Ok(rest)
        }
        None => Err(unfit(bits)),
    }
}

/// The bits after zeros.
#[tactic(auto, unfolding(crate::specs::Reading::read_zeros))]
fn read_zeros(zeros: Zeros, at: usize, bits: &[bool]) -> Result<&[bool], Stop>
    ensures { Gives (λ rest. ([], rest.now)) result (read_zeros zeros at bits.now) }
{
    match after_zeros(zeros.count(at), bits) {
        Some(rest) => Ok(rest),
        None => Err(unfit(bits)),
    }
}

/// The bits that are left, if at least so many of the bits aren't among them.
fn with_least<'a>(least: usize, bits: &[bool], rest: &'a [bool]) -> Result<&'a [bool], Stop>
    ensures { Gives (λ rest. rest.now) result (if nat_le least (length bits.now - length rest.now) then Ok rest.now else Err (length bits.now)) }
{
    if least <= bits.len().saturating_sub(rest.len()) {
        Ok(rest)
    } else {
        Err(unfit(bits))
    }
}

/// The parts of one element, which has at least so many bits, and the bits after it.
#[cycle(reading)]
fn read_element<'a>(
    body: &Field,
    least: usize,
    whole: usize,
    bits: &'a [bool],
    parts: &mut Vec<Part>,
) -> Result<&'a [bool], Stop>
    ensures { Gives (λ rest. (parts.new.items, rest.now)) result (with_front parts.old.items (with_least least bits.now (read whole body.now bits.now))) }
{
    let rest = read(body, whole, bits, parts)?;
    with_least(least, bits, rest)
}

/// So many elements.
#[cycle(reading)]
fn read_elements<'a>(
    body: &Field,
    count: usize,
    whole: usize,
    bits: &'a [bool],
    parts: &mut Vec<Part>,
) -> Result<&'a [bool], Stop>
    ensures { Gives (λ rest. (parts.new.items, rest.now)) result (with_front parts.old.items (read_elements (read whole body.now) count bits.now)) }
{
    let mut rest = bits;
    for _turn in 0..count {
        rest = read_element(body, 1, whole, rest, parts)?;
    }
    Ok(rest)
}

/// All elements up to the end, how many they are, and the bits after the end.
#[cycle(reading)]
fn read_all<'a>(
    body: &Field,
    end: End,
    whole: usize,
    bits: &'a [bool],
    parts: &mut Vec<Part>,
) -> Result<(usize, &'a [bool]), Stop>
    ensures { Gives (λ x. (x.0, parts.new.items, x.1.now)) result (with_found 0 parts.old.items (read_list (read whole body.now) end (length bits.now + 1) bits.now)) }
{
    let mut count = 0;
    let mut rest = bits;
    for _turn in 0..bits.len() + 1 {
        if let Some(after) = end.after(rest) {
            return Ok((count, after));
        }
        rest = read_element(body, end.least(), whole, rest, parts)?;
        count += 1;
    }
    Err(unfit(rest))
}

/// The same, with their number before them.
#[tactic(auto, unfolding(crate::specs::Reading::read_whole_list))]
#[cycle(reading)]
pub(crate) fn read_list<'a>(
    body: &Field,
    end: End,
    whole: usize,
    bits: &'a [bool],
    parts: &mut Vec<Part>,
) -> Result<&'a [bool], Stop>
    ensures { Gives (λ rest. (parts.new.items, rest.now)) result (with_front parts.old.items (read_whole_list (read whole body.now) end bits.now)) }
{
    let mut elements = Vec::new(*parts.allocator());
    let (count, rest) = read_all(body, end, whole, bits, &mut elements)?;
    parts.push(Part::Elements(count))?;
    parts.append(&mut elements)?;
    Ok(rest)
}

/// The parts of fields that begin with these bits of a resource, which has so many in all, and the bits after them.
#[cycle(reading)]
pub(crate) fn read<'a>(
    field: &Field,
    whole: usize,
    bits: &'a [bool],
    parts: &mut Vec<Part>,
) -> Result<&'a [bool], Stop>
    ensures { Gives (λ rest. (parts.new.items, rest.now)) result (with_front parts.old.items (read whole field.now bits.now)) }
{
    match field {
        Field::Nothing => Ok(bits),
        Field::Then(first, second) => {
            let rest = read(first, whole, bits, parts)?;
            read(second, whole, rest, parts)
        }
        Field::Number(field) => read_number(field, bits, parts),
        Field::Text(form, _) => read_text(*parts.allocator(), *form, bits, parts),
        Field::Zeros(zeros) => read_zeros(*zeros, whole.saturating_sub(bits.len()), bits),
        Field::Repeated(count, body) => read_elements(body, *count as usize, whole, bits, parts),
        Field::Counted(count, between, body) => {
            let Some((number, rest)) = count.at(bits) else {
                return Err(unfit(bits));
            };
            parts.push(Part::Elements(number))?;
            let rest = read(between, whole, rest, parts)?;
            read_elements(body, number, whole, rest, parts)
        }
        Field::Marked(mark, body) => read_list(body, End::At(*mark), whole, bits, parts),
        Field::Case(key, chosen, other) => {
            let is_chosen = key.is_in(bits);
            parts.push(Part::Case(is_chosen))?;
            let fields = if is_chosen { chosen } else { other };
            let rest = read(fields, whole, bits, parts)?;
            with_least(key.least(), bits, rest)
        }
        Field::NoCase => Err(unfit(bits)),
    }
}
