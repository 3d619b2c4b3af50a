//! The messages of a client's link: sending the telegrams of a job, and taking messages.
ghost use Rattle.std.specs.Prelude.{◌≡◌, ◌+◌, ◌<◌, ◌≤◌, ℕ, List, [], ◌++◌, length, take, None, true, false};
ghost use Rattle.s7_outer.specs.Numbers.{two_octets};
ghost use Rattle.s7_tpkt.specs.Packets.{state_of};
ghost use Rattle.s7_tpkt.specs.declared.state.FedState.TheVariants.{More};
ghost use Rattle.s7_cotp.specs.Told.{tsap_of};
ghost use Rattle.s7_header.specs.Negotiation.{most_pdu};
ghost use Rattle.s7_wire.specs.Bounds.{most_packets};
ghost use Rattle.s7_wire.specs.Reads.{HasRead, HasFound, HasMessage, opens_by, ended_with, message_at};
ghost use Rattle.s7_wire.specs.Reads.{held_by, limit_at};
ghost use Rattle.s7_dialogue.specs.Running.{IsAsking, IsOpening, unput_of};
ghost use Rattle.s7_dialogue.specs.Course.{Origin, Course, conduct_of, asking, connect_octets, disconnect_octets};
ghost use Rattle.s7_dialogue.specs.Course.{with_message};

use crate::under_way::UnderWay;
use s7_cotp::{Connection, Tsap, write_connect, write_disconnect};
use s7_dialogue::codes::{INVALID_ANSWER, SHORT_MESSAGE};
use s7_dialogue::{Config, Grant, Running, Stage};
use s7_outer::Buffer;
use s7_wire::{Found, MOST_PACKETS, Outbox, Reader, Taken, put_message};

/// The TPDU size to ask for, in octets.
const ASKED_SIZE: u16 = 1_024;

/// The code of this TPDU size.
const SIZE_CODE: u8 = 0x0A;

/// The reference of each side.
const REFERENCE: u16 = 1;

/// The reason of a disconnect request by the user of the link.
const BY_USER: u8 = 0x80;

/// The least number of octets of a message.
const LEAST_MESSAGE: usize = 10;

/// The reader of the link, the sequence of the last numbered telegram, and what is to be sent.
#[derive(Drop)]
pub(crate) struct Talk {
    /// Reads the octets of the link.
    pub(crate) reader: Reader,
    /// The sequence of the last numbered telegram.
    pub(crate) sequence: u16,
    /// The message that is being written.
    pub(crate) message: Buffer,
    /// What is to be sent.
    pub(crate) outbox: Outbox,
    ghost room: { message.room ≡ most_pdu },
}

impl Talk {
    ghost use Rattle.s7_client.specs.At.{IsAt, Reaches, Settles, Puts, Queues, BeginsTalk, size_in};

    /// Begins a job: queues its connection or disconnect request, or asks its first questions.
    pub(crate) fn begin(&mut self, running: &mut Running, config: &Config)
        requires { self.old.outbox.unsent ≡ [] }
        ensures { BeginsTalk config.now self.old running.old self.new running.new }
    {
        self.outbox.clear();
        match &running.stage {
            Stage::Opening => self.put_connect(config),
            Stage::Leaving => self.put_disconnect(),
            Stage::Asking(_) | Stage::Single(_) | Stage::Over { .. } => {
                self.sequence = running.go_on(self.sequence);
            }
        }
    }

    /// Queues the telegrams that may be sent, as many as there is room for, if all before them were sent. So one
    /// transmit sends them all.
    pub(crate) fn put_next(&mut self, running: &mut Running, config: &Config)
        ensures { Puts config.now self.old running.old self.new running.new }
    {
        if !self.outbox.is_empty() {
            return;
        }
        self.outbox.clear();
        while self.outbox.room() >= MOST_PACKETS {
            if !self.put_one(running, config) {
                return;
            }
        }
    }

    /// Queues the next telegram that may be sent, after those that are queued. Returns false if there is none.
    fn put_one(&mut self, running: &mut Running, config: &Config) -> bool
        requires room { most_packets ≤ self.old.outbox.room }
        ensures queues { Queues config.now self.old running.old self.new running.new }
        ensures room { length self.new.outbox.unsent + self.new.outbox.room
            ≡ length self.old.outbox.unsent + self.old.outbox.room }
        ensures some { result ≡ true → length self.old.outbox.unsent < length self.new.outbox.unsent }
        ensures none { result ≡ false → (size : ℕ) → unput_of config.now size running.new ≡ [] }
    {
        if running.write_next(config, &mut self.message) {
            let size = self.size();
            put_message(&mut self.outbox, size, self.message.as_slice());
            return true;
        }
        false
    }

    /// The TPDU size of the link: the size that was asked for, until the confirm states another.
    fn size(&self) -> u16
        ensures size { result ≡ size_in self.now }
        ensures least { 128 ≤ result }
        ensures most { result ≤ 8192 }
    {
        match self.reader.size() {
            Some(size) => size,
            None => ASKED_SIZE,
        }
    }

    /// Queues the disconnect request.
    fn put_disconnect(&mut self)
        requires { self.old.outbox ≡ record { unsent = []; room = 4096 } }
        ensures unsent { self.new.outbox.unsent ≡ disconnect_octets }
        ensures reader { self.new.reader ≡ self.old.reader }
        ensures sequence { self.new.sequence ≡ self.old.sequence }
    {
        let mut octets = [0u8; 7];
        let len = write_disconnect(REFERENCE, REFERENCE, BY_USER, &mut octets);
        self.outbox.put(&octets[..len]);
    }

    /// Queues the connection request.
    fn put_connect(&mut self, config: &Config)
        requires { self.old.outbox ≡ record { unsent = []; room = 4096 } }
        ensures unsent { self.new.outbox.unsent ≡ connect_octets config.now }
        ensures reader { self.new.reader ≡ self.old.reader }
        ensures sequence { self.new.sequence ≡ self.old.sequence }
    {
        let request = Connection {
            dst_ref: 0,
            src_ref: REFERENCE,
            class: 0,
            size_code: SIZE_CODE,
            calling: tsap(config.calling),
            called: tsap(config.called),
        };
        let mut octets = [0u8; 64];
        let len = write_connect(&request, &mut octets);
        self.outbox.put(&octets[..len]);
    }

    /// Reads octets up to the end of one packet or of the piece, and returns what they have ended. So no octet
    /// after a message is used before the questions that follow from the message are sent.
    pub(crate) fn read(&mut self, piece: &[u8]) -> Taken
        requires some { 0 < length piece.now }
        requires going { ended_with self.old.reader ≡ None }
        ensures taken { result.octets ≤ length piece.now }
        ensures some { 0 < result.octets }
        ensures found { (b : List ℕ) → HasRead self.old.reader b
            → HasFound self.new.reader b (take result.octets piece.now) result.found }
        ensures earliest { (k : ℕ) → k < result.octets
            → state_of (limit_at self.old.reader) (held_by self.old.reader ++ take k piece.now) ≡ More }
        ensures opening { opens_by self.new.reader ≡ opens_by self.old.reader }
        ensures message { result.found ≡ Found.Message → HasMessage self.new.reader }
        ensures same { self.new ≡ record self.old { reader = self.new.reader } }
    {
        self.reader.read(piece)
    }

    /// Takes the confirm: asks the first questions.
    pub(crate) fn open(&mut self, job: &mut UnderWay)
        requires opening { IsOpening job.old.running.stage }
        requires sent { self.old.outbox.unsent ≡ [] }
        ensures reaches { (origin : Origin) (course : Course) → IsAt origin course self.old job.old
            → Reaches origin course (asking (conduct_of origin) course) self.new job.new }
        ensures settles { (config : Config) → Settles config self.old job.old self.new job.new }
    {
        job.running.confirm();
        self.sequence = job.running.go_on(self.sequence);
    }

    /// Takes the message that was read whole.
    pub(crate) fn message(&mut self, job: &mut UnderWay, config: &Config, granted: Option<Grant>)
        requires asking { IsAsking job.old.running.stage }
        requires whole { HasMessage self.old.reader }
        requires most { length (message_at self.old.reader) ≤ 8192 }
        requires sent { self.old.outbox.unsent ≡ [] }
        requires unput { (size : ℕ) → unput_of config.now size job.old.running ≡ [] }
        requires carried { job.old.carried.room ≡ 8192 }
        requires pdu { config.now.pdu ≤ most_pdu }
        requires jobs { config.now.jobs ≤ 8 }
        ensures reaches { (origin : Origin) (course : Course) → origin.config ≡ config.now
            → origin.granted ≡ granted → IsAt origin course self.old job.old
            → Reaches origin course (with_message (conduct_of origin) course (message_at self.old.reader))
            self.new job.new }
        ensures settles { Settles config.now self.old job.old self.new job.new }
    {
        let message = self.reader.message();
        if message.len() < LEAST_MESSAGE {
            job.running.fail(SHORT_MESSAGE);
            return;
        }
        match job.running.take(config, self.sequence, message) {
            None => {
                job.carried.clear();
                job.carried.add(message);
                job.running.fail(INVALID_ANSWER);
            }
            Some(sequence) => self.sequence = sequence,
        }
    }
}

/// A TSAP of two octets.
fn tsap(number: u16) -> Tsap
    ensures octets { tsap_of result ≡ two_octets number }
    ensures len { result.len ≡ 2 }
{
    let mut octets = [0; 16];
    octets[0] = (number / 256) as u8;
    octets[1] = (number % 256) as u8;
    Tsap { octets, len: 2 }
}
