//! Laws of the definitions: what is read is what the octets spell, and what is written is read again. They do
//! nothing at run time.
ghost use Rattle.std.specs.Prelude.{◌≡◌, ℕ, ◌↔◌, ◌%◌, List, [], ◌∷◌, take, slice_index, true, Some, Ok, Result};
ghost use Rattle.std.specs.Prelude.{IsOkAnd};
ghost use Rattle.jiff.specs.Types.{DateTime};
ghost use Rattle.s7_outer.specs.Numbers.{AreOctets};
ghost use Rattle.s7_clock.specs.Clock.{IsClockYear, Reads, octets_of, parts_in, weekday};
ghost use Rattle.s7_clock.specs.Control.{SpellsControl, control_of, control_spelling, is_control};
ghost use Rattle.s7_clock.specs.Moment.{HasMoment, IsCutTo, IsHeld, moment_in, moment_of, moment_octets};
ghost use Rattle.s7_clock.specs.declared.control.Control.{Control};
ghost use Rattle.s7_clock.specs.declared.faults.NotDate.{NotDate};

/// A law: what is read from the clock octets of a date and time is that date and time, cut to milliseconds. Octets
/// that begin `00 19` and end in the right weekday are the clock octets of what is read from them.
pub fn clock_reading()
    ensures back { (t : DateTime) (read : Result DateTime NotDate) → IsClockYear t.date.year
        → Reads (parts_in (octets_of t)) read
        → IsOkAnd read (λ u. IsCutTo t u) }
    ensures again { (octets : List ℕ) (t : DateTime) → AreOctets octets → Reads (parts_in octets) (Ok t)
        → take 2 octets ≡ 0x00 ∷ 0x19 ∷ []
        → slice_index octets 9 % 16 ≡ weekday t → octets_of t ≡ octets }
{}

/// A law: a date and time of a moment from the first to the last has a year from 1990 to 2089, and its moment is
/// that one. The date and time of a moment of a date and time is that date and time, cut to milliseconds. The clock
/// octets of a date and time are those of its moment, and are read as that moment.
pub fn moment_reading()
    ensures dates { (t : DateTime) (ms : ℕ) → IsHeld ms → HasMoment t ms
        → IsClockYear t.date.year × (moment_of t ≡ ms) }
    ensures again { (t u : DateTime) → IsClockYear t.date.year → HasMoment u (moment_of t) → IsCutTo t u }
    ensures octets { (t : DateTime) → IsClockYear t.date.year → octets_of t ≡ moment_octets (moment_of t) }
    ensures read { (t : DateTime) → IsClockYear t.date.year → moment_in (octets_of t) ≡ Some (moment_of t) }
{}

/// A law: a control is read exactly if the parameters spell it, and they spell at most one. A control that was
/// written is read again.
pub fn control_reading()
    ensures read { (params : List ℕ) (c : Control) → (control_of params ≡ Ok c) ↔ SpellsControl params c }
    ensures one { (params : List ℕ) (b c : Control) → SpellsControl params b → SpellsControl params c → b ≡ c }
    ensures again { (c : Control) → is_control c ≡ true → control_of (control_spelling c) ≡ Ok c }
{}
