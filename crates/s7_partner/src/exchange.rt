//! Taking fragments and their acknowledgements.
ghost use Rattle.std.specs.Prelude.{◌≡◌, ◌≢◌, ◌++◌, ◌≤◌, ℕ, List, [], length, option_map, if◌then◌else◌, true, is_none};
ghost use Rattle.std.specs.Bool.{OnTrue, OnFalse};
ghost use Rattle.s7_partner.specs.Telegrams.{sequence_of};
ghost use Rattle.s7_partner.specs.States.{is_acknowledged, goes_on_with};
ghost use Rattle.s7_partner.specs.Held.{sending_in, receiving_in};
ghost use Rattle.s7_partner.specs.Pieces.{piece_held, first_block, block_for, with_piece_read};

use crate::partner::{Arrived, Partner, Receiving, Sending};
use crate::step::Step;
use crate::telegrams::{Piece, confirms, piece_room, put_confirm, read_piece, sequence_of};
use s7_client::codes::INVALID_ANSWER;
use s7_outer::Buffer;

impl Partner {
    ghost use Rattle.std.specs.Prelude.{false, None};
    ghost use Rattle.s7_partner.specs.Held.{closed_of};
    ghost use Rattle.s7_wire.specs.Reads.{HasMessage, message_at};
    ghost use Rattle.s7_partner.specs.declared.partner.Stage.TheVariants.{Going};
    ghost use Rattle.s7_wire.specs.Reads.{size_at};
    ghost use Rattle.s7_partner.specs.States.{acknowledged, exchanged};
    ghost use Rattle.s7_partner.specs.Fits.{is_early};
    ghost use Rattle.s7_partner.specs.At.{Reaches, Does, IsIdle, KeepsPiece};

    /// Takes the message that was read, as a fragment or an acknowledgement. The link was negotiated with this PDU.
    pub(crate) fn exchange(&mut self, pdu: u16) -> Step
        requires going { self.old.stage ≡ Going pdu }
        requires idle { IsIdle self.old }
        requires whole { HasMessage self.old.reader }
        requires long { 10 ≤ length (message_at self.old.reader) }
        ensures reaches { Reaches self.old self.new (λ s. exchanged s pdu (message_at self.old.reader)) }
        ensures does { Does self.old self.new result }
    {
        if is_acknowledged(&self.sending, self.reader.message()) {
            return self.send_on(pdu);
        }
        self.take_piece()
    }

    /// Takes the acknowledgement of the fragment in flight. The next fragment is queued; after the last one the
    /// block was sent.
    fn send_on(&mut self, pdu: u16) -> Step
        requires going { self.old.stage ≡ Going pdu }
        requires idle { IsIdle self.old }
        requires sending { is_none self.old.sending ≡ false }
        ensures reaches { Reaches self.old self.new (λ s. acknowledged s pdu s.sending) }
        ensures does { Does self.old self.new result }
    {
        let Some(sending) = &mut self.sending else {
            unreachable!()
        };
        let next = sending.from + piece_room(pdu);
        if next < sending.body.as_slice().len() {
            sending.from = next;
            self.put_next(pdu);
            return Step::Went;
        }
        self.sending = None;
        Step::Sent
    }

    /// Takes the message as a fragment.
    fn take_piece(&mut self) -> Step
        requires live { closed_of self.old ≡ None }
        requires sized { is_none (size_at self.old.reader) ≡ false }
        requires negotiated { is_early self.old.stage ≡ false }
        requires idle { IsIdle self.old }
        requires whole { HasMessage self.old.reader }
        requires long { 10 ≤ length (message_at self.old.reader) }
        ensures reaches { Reaches self.old self.new (λ s. with_piece_read s (message_at self.old.reader)) }
        ensures does { Does self.old self.new result }
    {
        let message = self.reader.message();
        let sequence = sequence_of(message);
        let first = self.receiving.is_none();
        let Some(piece) = read_piece(first, message) else {
            return self.close(INVALID_ANSWER);
        };
        let Some(block) = block_of(self.receiving, &piece) else {
            return self.close(INVALID_ANSWER);
        };
        let (number, more) = (piece.number, piece.more);
        if !take_octets(&mut self.octets, first, block.total, &piece) {
            return self.close(INVALID_ANSWER);
        }
        self.keep(block, sequence, number, more);
        Step::Went
    }

    /// Keeps the block with the octets of a fragment of this sequence and number. If more fragments follow, this
    /// one is acknowledged.
    fn keep(&mut self, block: Receiving, sequence: u16, number: u8, more: bool)
        requires idle { IsIdle self.old }
        requires sized { is_none (size_at self.old.reader) ≡ false }
        requires negotiated { is_early self.old.stage ≡ false }
        requires fits { length self.old.octets.octets ≤ block.total }
        ensures { KeepsPiece self.old self.new block sequence number more }
    {
        if more {
            let size = self.size();
            self.receiving = Some(block);
            put_confirm(&mut self.outbox, &mut self.message, size, sequence, number);
            return;
        }
        self.receiving = None;
        self.whole = Some(Arrived {
            rid: block.rid,
            sequence,
            number,
        });
    }
}

/// Whether the message acknowledges the fragment in flight.
fn is_acknowledged(sending: &Option<Sending>, message: &[u8]) -> bool
    ensures { result ≡ is_acknowledged (option_map sending_in sending.now) message.now }
{
    let Some(sending) = sending else {
        return false;
    };
    match sending.sequence {
        Some(sequence) => confirms(sequence, sending.number, message),
        None => false,
    }
}

/// The block to which a fragment belongs: a new one, or the block being received if the fragment has its number and
/// R_ID. `None` if there is none.
fn block_of(receiving: Option<Receiving>, piece: &Piece<'_>) -> Option<Receiving>
    ensures { (came : List ℕ)
        → option_map (receiving_in (if is_none receiving then [] else came)) result
        ≡ block_for (option_map (receiving_in came) receiving) (piece_held piece.now) }
{
    match receiving {
        None => first_block(piece),
        Some(block) if block.number == piece.number && block.rid == piece.rid => Some(block),
        Some(_) => None,
    }
}

/// The block that a first fragment begins; `None` if it isn't a first fragment.
fn first_block(piece: &Piece<'_>) -> Option<Receiving>
    ensures { option_map (receiving_in []) result ≡ first_block (piece_held piece.now) }
{
    match piece.total {
        Some(total) => Some(Receiving {
            number: piece.number,
            rid: piece.rid,
            total,
        }),
        None => None,
    }
}

/// Appends the octets of a fragment to those received before, if the fragment continues its block of `total`
/// octets, and returns whether it does. A first fragment drops the octets from before. If the fragment doesn't
/// continue the block, nothing of it is taken.
fn take_octets(octets: &mut Buffer, first: bool, total: u16, piece: &Piece<'_>) -> bool
    requires { octets.old.room ≡ 65535 }
    ensures goes_on { result ≡ goes_on_with total (if first then [] else octets.old.octets) (piece_held piece.now) }
    ensures taken { OnTrue result (octets.new.octets
        ≡ (if first then [] else octets.old.octets) ++ piece.now.octets.now) }
    ensures fits { OnTrue result (length octets.new.octets ≤ total) }
    ensures kept { OnFalse result (octets.new.octets ≡ (if first then [] else octets.old.octets)) }
    ensures room { octets.new.room ≡ 65535 }
{
    if first {
        octets.clear();
    }
    let goes_on = goes_on_with(total, octets.as_slice().len(), piece);
    if goes_on {
        octets.add(piece.octets);
    }
    goes_on
}

/// Whether a fragment continues its block: only a fragment with octets may have successors, and after the last one
/// all octets of the block have come.
fn goes_on_with(total: u16, came: usize, piece: &Piece<'_>) -> bool
    requires { came ≤ 65535 }
    ensures { (octets : List ℕ) → length octets ≡ came → result ≡ goes_on_with total octets (piece_held piece.now) }
{
    let len = came + piece.octets.len();
    if piece.more {
        !piece.octets.is_empty() && len <= usize::from(total)
    } else {
        len == usize::from(total)
    }
}
