//! Reading area files.
ghost use Rattle.std.specs.Prelude.{◌≡◌, OnOk, IfErr, ◌<◌, ◌≤◌, ◌+◌, ◌-◌, ◌∷◌, ℕ, [], Ok, length, option_map, vec_len};
ghost use Rattle.std.specs.Prelude.{Some, None};
ghost use Rattle.hex.specs.Hex.{decode_of};
ghost use Rattle.s7_area.specs.Registers.{is_wrong_size};
ghost use Rattle.s7_text.specs.Lines.{lines};
ghost use Rattle.s7_script.specs.Reading.{Gives, FailsAs, areas as areas_by, by_current, filled, guarded, hex_octets};
ghost use Rattle.s7_script.specs.Reading.{kind_of, nothing_read, read_lines, registered, run_octets, version_of};
ghost use Rattle.s7_script.specs.Reading.{with_line, with_octets};
ghost use Rattle.s7_script.specs.Shown.{open_of, state_of};

use crate::areas::area_line::{area_line, fault};
use crate::areas::guard_line::guard_line;
use crate::areas::opening::{Open, State};
use crate::areas::run_line::{run_of, run_parts};
use crate::areas::version::Version;
use crate::{AreasFault, AreasKind};
use hex::FromHexError;
use s7_area::{AreaKey, Areas, RegisterFault, areas_join};
use s7_item::codes::{COUNTERS, TIMERS};
use s7_outer::Octets;
use s7_text::{first_line, split_field};
use std::alloc::Global;

/// The greatest number of octets of an area.
const MOST_OCTETS: u64 = 2_097_152;

/// The greatest number of octets of all areas together.
const MOST_IN_ALL: u64 = 16_777_216;

/// The areas that an area file names, with the guard that it gives, or its first wrong line.
///
/// Each line ends with LF; a CR right before the LF is skipped, and the last LF may be missing. The first line is `s7
/// areas 1` or `s7 areas 2`. After it, empty lines and lines that begin with `#` are skipped. Fields are separated by
/// one space, and numbers are decimal with at most ten digits.
///
/// Before any area there may be one line `protect`, a level, 2 or 3, and a password: one to eight printable ASCII
/// octets without space. It is the guard; without this line the areas have none. An area begins with the line `PE`,
/// `PA`, `MK`, `CT` or `TM` and its length, or `DB`, the number of the data block from 1 to 65,535, and its length.
/// Lines with the octets follow, until the area has as many octets as its length states. Such a line is hexadecimal
/// digits in either case; in version 2 it may also be a run, `COUNT*HH`, which states COUNT octets, from 1 on, with the
/// value HH. Each area is registered by `Areas::register`.
///
/// `AreasKind` explains each fault. Returns `Memory` if an allocation fails.
pub fn read_areas(alloc: Global, text: &[u8]) -> Result<Areas, AreasFault>
    ensures { Gives (λ a. a) result (areas_by text.now) }
{
    if text.is_empty() {
        return Err(fault(1, AreasKind::Head));
    }
    let (first, rest) = first_line(text);
    match version_of(first) {
        Some(version) => read_rest(alloc, version, rest),
        None => Err(fault(1, AreasKind::Head)),
    }
}

/// The version that the first line names.
fn version_of(first: &[u8]) -> Option<Version>
    ensures { result ≡ version_of first.now }
{
    if first == b"s7 areas 1".as_slice() {
        Some(Version::One)
    } else if first == b"s7 areas 2".as_slice() {
        Some(Version::Two)
    } else {
        None
    }
}

/// Reads the lines from the second on.
fn read_rest(alloc: Global, version: Version, text: &[u8]) -> Result<Areas, AreasFault>
    ensures { Gives (λ a. a) result (read_lines 2 (nothing_read version) (lines text.now)) }
{
    let mut state = nothing(version);
    let mut rest = text;
    let mut line: u32 = 2;
    while !rest.is_empty() {
        let (next, after) = first_line(rest);
        state.take_line(alloc, line, next)?;
        line = line.saturating_add(1);
        rest = after;
    }
    let State { areas, current, .. } = state;
    match current {
        Some(_) => Err(fault(line, AreasKind::Ended)),
        None => Ok(areas),
    }
}

/// The state before the second line.
fn nothing(version: Version) -> State
    ensures { state_of result ≡ nothing_read version }
{
    State {
        version,
        may_guard: true,
        areas: Areas::new(),
        total: 0,
        current: None,
    }
}

impl State {
    /// Reads the next line.
    #[tactic(auto, unfolding(crate::specs::Reading::with_line))]
    fn take_line(&mut self, alloc: Global, line: u32, text: &[u8]) -> Result<(), AreasFault>
        ensures ok { OnOk result (with_line line (state_of self.old) text.now ≡ Ok (state_of self.new)) }
        ensures err { IfErr result (λ e. FailsAs e e.kind (with_line line (state_of self.old) text.now)) }
    {
        if text.is_empty() || text[0] == b'#' {
            return Ok(());
        }
        let (name, rest) = split_field(text);
        if name == b"protect".as_slice() {
            return self.take_guard(line, rest);
        }
        match self.current.take() {
            Some(area) => self.add_line(alloc, line, area, text),
            None => self.begin_area(alloc, line, text),
        }
    }

    /// Reads a line that gives a guard: the fields after its first one.
    fn take_guard(&mut self, line: u32, rest: Option<&[u8]>) -> Result<(), AreasFault>
        ensures ok { OnOk result
            (guarded line (state_of self.old) (option_map (λ t. t.now) rest.entry) ≡ Ok (state_of self.new)) }
        ensures err { IfErr result
            (λ e. FailsAs e e.kind (guarded line (state_of self.old) (option_map (λ t. t.now) rest.entry))) }
    {
        if !self.may_guard {
            return Err(fault(line, AreasKind::Line));
        }
        let guard = guard_line(line, rest)?;
        self.areas.set_guard(Some(guard));
        self.may_guard = false;
        Ok(())
    }

    /// Reads a line that begins an area.
    fn begin_area(&mut self, alloc: Global, line: u32, text: &[u8]) -> Result<(), AreasFault>
        ensures ok { OnOk result (by_current line (state_of self.old) None text.now ≡ Ok (state_of self.new)) }
        ensures err { IfErr result (λ e. FailsAs e e.kind (by_current line (state_of self.old) None text.now)) }
    {
        let (key, size) = area_line(line, text)?;
        if self.is_wrong_size(key, size) {
            return Err(fault(line, AreasKind::Register(RegisterFault::Size)));
        }
        self.may_guard = false;
        self.current = Some(Open {
            line,
            key,
            size: size as usize,
            octets: Vec::new(alloc),
        });
        Ok(())
    }

    /// Whether an area of this name can't have this length, or the areas would have too many octets with it.
    fn is_wrong_size(&self, key: AreaKey, size: u64) -> bool
        ensures { result ≡ is_wrong_size self.now.areas key size }
    {
        size == 0
            || size > MOST_OCTETS
            || (key.area == COUNTERS || key.area == TIMERS) && size % 2 != 0
            || size > MOST_IN_ALL - self.total as u64
    }

    /// Reads a line of octets of an area.
    fn add_line(
        &mut self,
        alloc: Global,
        line: u32,
        area: Open,
        text: &[u8],
    ) -> Result<(), AreasFault>
        ensures ok { OnOk result
            (by_current line (state_of self.old) (Some (open_of area)) text.now ≡ Ok (state_of self.new)) }
        ensures err { IfErr result
            (λ e. FailsAs e e.kind (by_current line (state_of self.old) (Some (open_of area)) text.now)) }
    {
        match run_parts(self.version, text) {
            Some((count, digits)) => self.add_run(alloc, line, area, count, digits),
            None => self.add_octets(alloc, line, area, text),
        }
    }

    /// Reads a run of equal octets of an area.
    fn add_run(
        &mut self,
        alloc: Global,
        line: u32,
        mut area: Open,
        count: &[u8],
        digits: &[u8],
    ) -> Result<(), AreasFault>
        ensures ok { OnOk result (with_octets line (state_of self.old) (open_of area)
            (run_octets line (count.now, digits.now)) ≡ Ok (state_of self.new)) }
        ensures err { IfErr result (λ e. FailsAs e e.kind
            (with_octets line (state_of self.old) (open_of area) (run_octets line (count.now, digits.now)))) }
    {
        let (count, octet) = run_of(line, count, digits)?;
        let len = area.octets.len();
        if count > (area.size - len) as u64 {
            return Err(fault(line, AreasKind::Length));
        }
        if area.octets.resize(len + count as usize, octet).is_err() {
            return Err(fault(line, AreasKind::Memory));
        }
        self.fill(alloc, area)
    }

    /// Reads octets of an area, in digits.
    fn add_octets(
        &mut self,
        alloc: Global,
        line: u32,
        mut area: Open,
        text: &[u8],
    ) -> Result<(), AreasFault>
        ensures ok { OnOk result (with_octets line (state_of self.old) (open_of area)
            (hex_octets line (decode_of text.now)) ≡ Ok (state_of self.new)) }
        ensures err { IfErr result (λ e. FailsAs e e.kind
            (with_octets line (state_of self.old) (open_of area) (hex_octets line (decode_of text.now)))) }
    {
        let octets = match hex::decode(alloc, text) {
            Ok(octets) => octets,
            Err(FromHexError::OutOfMemory) => return Err(fault(line, AreasKind::Memory)),
            Err(_) => return Err(fault(line, AreasKind::Digits)),
        };
        if octets.len() > area.size - area.octets.len() {
            return Err(fault(line, AreasKind::Length));
        }
        if area.octets.extend_from_slice(octets.as_slice()).is_err() {
            return Err(fault(line, AreasKind::Memory));
        }
        self.fill(alloc, area)
    }

    /// Continues with an area that has more octets, or registers it if it is complete.
    fn fill(&mut self, alloc: Global, area: Open) -> Result<(), AreasFault>
        ensures ok { OnOk result (filled (state_of self.old) (open_of area) ≡ Ok (state_of self.new)) }
        ensures err { IfErr result (λ e. FailsAs e e.kind (filled (state_of self.old) (open_of area))) }
    {
        if area.octets.len() < area.size {
            self.current = Some(area);
            return Ok(());
        }
        self.register(alloc, area)
    }

    /// Registers an area that is complete.
    fn register(&mut self, alloc: Global, area: Open) -> Result<(), AreasFault>
        ensures ok { OnOk result (registered (state_of self.old) (open_of area) ≡ Ok (state_of self.new)) }
        ensures err { IfErr result (λ e. FailsAs e e.kind (registered (state_of self.old) (open_of area))) }
    {
        areas_join();
        let len = area.octets.len();
        match self
            .areas
            .register(alloc, area.key, Octets::of_vec(area.octets))
        {
            Ok(()) => {
                self.total += len;
                self.current = None;
                Ok(())
            }
            Err((refusal, _)) => Err(fault(area.line, kind_of(refusal))),
        }
    }
}

/// The fault of an area that is refused.
fn kind_of(refusal: RegisterFault) -> AreasKind
    ensures { result ≡ kind_of refusal }
{
    match refusal {
        RegisterFault::Memory => AreasKind::Memory,
        RegisterFault::Key
        | RegisterFault::Size
        | RegisterFault::Exists
        | RegisterFault::TooManyDbs => AreasKind::Register(refusal),
    }
}
