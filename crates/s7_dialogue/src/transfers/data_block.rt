//! Whole data blocks: the parts in which they are read or filled, the telegrams of the parts, and their
//! acknowledgements (Snap7 1.4 reference manual, `Cli_DBGet`, `Cli_DBFill`).
ghost use Rattle.std.specs.Prelude.{◌≡◌, ℕ, ◌+◌, ◌<◌, ◌≤◌, true, List, [], ◌∷◌, ◌++◌, length};
ghost use Rattle.std.specs.Prelude.{None, Some, MatchOption, option_map};
ghost use Rattle.s7_header.specs.Negotiation.{most_pdu};
ghost use Rattle.s7_block.specs.Heads.{four_at};
ghost use Rattle.s7_dialogue.specs.declared.questions.subject.Subject.TheVariants as subject;
ghost use Rattle.s7_dialogue.specs.declared.stages.single.Ask.TheVariants as asked;
ghost use Rattle.s7_dialogue.specs.Question.{question_octets, reads, writes};
ghost use Rattle.s7_dialogue.specs.Answer.{Answer, acknowledged};
ghost use Rattle.s7_dialogue.specs.DataBlocks.{tells_data, data_length};
ghost use Rattle.s7_dialogue.specs.DataPlaces.{part_room, part_count, part_at, part_question, place_from, place_behind};
ghost use Rattle.s7_dialogue.specs.DataPlaces.{next_part, refused_number, room_for_value, has_pdu, is_inside};
ghost use Rattle.s7_dialogue.specs.Singles.{TellsSingle, TellsIfSome, IsToldOf, IsWholeIfLast};

use crate::answers::answer::counts_items;
use crate::answers::data_items::first_item;
use crate::codes::PARTLY_WRITTEN;
use crate::questions::left::alone;
use crate::questions::message::{MOST_MESSAGE, write_read, write_write};
use crate::refusals::number_of_code;
use crate::stages::single::Ask;
use crate::transfers::user_data::{MOST_JOINED, Told, number_at};
use s7_item::codes::{BYTE, DATA_BLOCKS, READ_FUNCTION, WRITE_FUNCTION};
use s7_item::{Item, is_good};
use s7_outer::Buffer;

/// The greatest number of octets of a data block.
const MOST_DATA: u32 = 2_097_152;

/// The greatest number of octets of one item of a data block.
const MOST_ITEM: u32 = 65_535;

/// The number of octets of the answer with a block's head.
const HEAD_TOLD: usize = 40;

/// The number of octets of a head, which the load length counts besides the data block's own.
const HEAD: u32 = 36;

/// The offset of the load length in that answer.
const LOAD_LENGTH: usize = 12;

/// A data block that is read or filled whole.
#[derive(Clone, Copy)]
pub(crate) struct DataBlock {
    pub(crate) number: u16,
    /// The PDU that was granted.
    pub(crate) pdu: u16,
    /// The value with which it is filled; `None` if it is read.
    pub(crate) value: Option<u8>,
}

/// Where the next part of a data block begins, and how much is left.
#[derive(Clone, Copy)]
pub(crate) struct Place {
    /// The offset of the next part in the data block.
    pub(crate) from: u32,
    /// The number of octets left of its item, from there on.
    pub(crate) here: u16,
    /// The number of octets left after that item.
    pub(crate) later: u32,
}

impl DataBlock {
    /// The greatest number of octets kept of its answers.
    pub(crate) fn room(&self) -> usize
        ensures { result ≡ room_for_value self.now.value }
    {
        match self.value {
            None => MOST_DATA as usize,
            Some(_) => MOST_JOINED,
        }
    }

    /// The number of octets of the part at this place.
    fn count(&self, place: Place) -> u16
        ensures count { result ≡ part_count self.now place }
        ensures within { result ≤ place.here }
    {
        let besides = if self.value.is_some() { 35 } else { 18 };
        self.pdu.saturating_sub(besides).min(place.here)
    }

    /// The item of the part at this place.
    fn part(&self, place: Place) -> Item
        requires { place.from + place.here ≤ 2097152 }
        ensures { result ≡ part_at self.now place }
    {
        Item {
            area: DATA_BLOCKS,
            db: self.number,
            word: BYTE,
            count: self.count(place),
            address: 8 * place.from,
        }
    }

    /// The question after the part at this place, if one is left.
    fn next(&self, place: Place) -> Option<Ask>
        requires { place.from + place.here ≤ 2097152 }
        ensures { result ≡ option_map (asked.Part self.now) (next_part self.now place) }
    {
        let next = place.behind(self.count(place))?;
        Some(Ask::Part(*self, next))
    }

    /// The error number with which the refusal of the part at this place ends the job.
    pub(crate) fn refused(&self, place: Place, number: u32) -> u32
        ensures { result ≡ refused_number self.now place number }
    {
        if self.value.is_some() && place.from != 0 {
            PARTLY_WRITTEN
        } else {
            number
        }
    }

    /// What the data item of the part at this place says, by its return code and its octets.
    fn told<'a>(&self, place: Place, code: u8, octets: &'a [u8]) -> Told<'a>
        requires { place.from + place.here ≤ 2097152 }
        ensures { IsToldOf self.now place code octets.now result }
    {
        if is_good(code) {
            Told::Brought {
                octets,
                next: self.next(place),
            }
        } else {
            Told::Refused(self.refused(place, number_of_code(code)))
        }
    }
}

impl Place {
    /// The place at offset `from` with `left` octets left, at least one.
    fn first(from: u32, left: u32) -> Place
        requires { 0 < left }
        ensures { place_from from left ≡ Some result }
    {
        let here = left.min(MOST_ITEM);
        Place {
            from,
            here: here as u16,
            later: left - here,
        }
    }

    /// The place `count` octets further in this item, or at the next item; `None` at the end.
    fn behind(self, count: u16) -> Option<Place>
        requires within { count ≤ self.here }
        requires inside { self.from + self.here ≤ 2097152 }
        ensures { result ≡ place_behind self count }
    {
        let from = self.from + u32::from(count);
        if count < self.here {
            return Some(Place {
                from,
                here: self.here - count,
                later: self.later,
            });
        }
        if self.later > 0 {
            Some(Place::first(from, self.later))
        } else {
            None
        }
    }
}

/// Writes the question for the part at this place as the only message in the buffer.
pub(crate) fn write_part(block: &DataBlock, place: Place, sequence: u16, message: &mut Buffer)
    requires pdu { has_pdu block.now ≡ true }
    requires inside { is_inside place ≡ true }
    requires room { message.old.room ≡ most_pdu }
    ensures octets { message.new.octets ≡ question_octets sequence (part_question block.now place) }
    ensures room { message.new.room ≡ most_pdu }
{
    let part = block.part(place);
    let items = alone(part);
    match block.value {
        None => write_read(&items, sequence, message),
        Some(value) => {
            let octets = [value; MOST_MESSAGE];
            write_write(
                &items,
                &octets[..usize::from(part.count)],
                sequence,
                message,
            );
        }
    }
}

/// Reads the answer to the question for the part at this place.
pub(crate) fn read_part<'a>(
    block: &DataBlock,
    place: Place,
    params: &[u8],
    body: &'a [u8],
) -> Option<Told<'a>>
    requires { place.from + place.here ≤ 2097152 }
    ensures { (so_far : List ℕ) → let answer = acknowledged (part_question block.now place) params.now body.now in
        MatchOption result (answer ≡ None)
        (λ told. TellsIfSome (asked.Part block.now place) so_far told answer) }
{
    match block.value {
        None => read_octets(block, place, params, body),
        Some(_) => read_code(block, place, params, body),
    }
}

/// Reads the answer to the read of a part.
fn read_octets<'a>(
    block: &DataBlock,
    place: Place,
    params: &[u8],
    body: &'a [u8],
) -> Option<Told<'a>>
    requires read { block.now.value ≡ None }
    requires inside { place.from + place.here ≤ 2097152 }
    ensures { (so_far : List ℕ)
        → let answer = acknowledged (reads (part_at block.now place ∷ [])) params.now body.now in
        MatchOption result (answer ≡ None)
        (λ told. TellsIfSome (asked.Part block.now place) so_far told answer) }
{
    let part = block.part(place);
    if !counts_items(READ_FUNCTION, &alone(part), params) {
        return None;
    }
    let first = first_item(&part, true, body)?;
    if !first.rest.is_empty() {
        return None;
    }
    Some(block.told(place, first.answer.code, first.answer.octets))
}

/// Reads the answer to the write of a part.
fn read_code<'a>(block: &DataBlock, place: Place, params: &[u8], body: &'a [u8]) -> Option<Told<'a>>
    requires { place.from + place.here ≤ 2097152 }
    ensures { (so_far octets : List ℕ)
        → let answer = acknowledged (writes (part_at block.now place ∷ []) octets) params.now body.now in
        MatchOption result (answer ≡ None)
        (λ told. TellsIfSome (asked.Part block.now place) so_far told answer) }
{
    if !counts_items(WRITE_FUNCTION, &alone(block.part(place)), params) || body.len() != 1 {
        return None;
    }
    Some(block.told(place, body[0], &[]))
}

/// Takes the octets of a data block's head that a message brings, after `so_far`. Once the head is whole, the first
/// part is to be asked for.
pub(crate) fn read_head<'a>(block: DataBlock, so_far: &[u8], told: Told<'a>) -> Told<'a>
    requires { (answer : Answer) × TellsSingle (asked.About subject.DataHead) so_far.now told answer
        × IsWholeIfLast so_far.now answer }
    ensures { (answer : Answer) → TellsSingle (asked.About subject.DataHead) so_far.now told.entry answer
        → IsWholeIfLast so_far.now answer → TellsSingle (asked.Head block) so_far.now result answer }
{
    let Told::Brought { octets, next } = told else {
        return told;
    };
    if let Some(Ask::Further(_, octet)) = next {
        return Told::Brought {
            octets,
            next: Some(Ask::HeadFurther(block, octet)),
        };
    }
    Told::Anew(first_part(block, data_length(so_far, octets)))
}

/// The question for the first part of a data block of `size` octets.
fn first_part(block: DataBlock, size: u32) -> Ask
    requires { 0 < size }
    ensures { (place : Place) × (place_from 0 size ≡ Some place) × (result ≡ asked.Part block place) }
{
    Ask::Part(block, Place::first(0, size))
}

/// The number of octets of the data block whose head these two pieces are.
fn data_length(so_far: &[u8], octets: &[u8]) -> u32
    requires { tells_data (so_far.now ++ octets.now) ≡ true }
    ensures length { result ≡ data_length (so_far.now ++ octets.now) }
    ensures some { 0 < result }
{
    let mut told = [0u8; HEAD_TOLD];
    told[..so_far.len()].copy_from_slice(so_far);
    told[so_far.len()..].copy_from_slice(octets);
    load_length(&told) - HEAD
}

/// Whether the octets are the head of a data block that can be read or filled whole.
pub(crate) fn tells_data(told: &[u8]) -> bool
    ensures { result ≡ tells_data told.now }
{
    told.len() == HEAD_TOLD && (HEAD + 1..=HEAD + MOST_DATA).contains(&load_length(told))
}

/// The load length that a head states.
fn load_length(told: &[u8]) -> u32
    requires { length told.now ≡ 40 }
    ensures { result ≡ four_at told.now 12 }
{
    u32::from(number_at(told, LOAD_LENGTH)) * 65_536 + u32::from(number_at(told, LOAD_LENGTH + 2))
}
