//! Laws of banks. They do nothing at run time.
ghost use Rattle.s7_bank.specs.BankLaws.{BanksAreLegal, PartsAreLegal};

/// A law: the history of a closed bank is legal for a caller whose seats made calls there for parts of telegrams, and
/// is legal for the bank if the callers that made calls there are those of links.
pub fn closed_banks_are_legal()
    ensures parts { PartsAreLegal }
    ensures banks { BanksAreLegal }
{}
