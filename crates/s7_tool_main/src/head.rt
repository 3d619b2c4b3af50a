//! The head of a printed line.
ghost use Rattle.std.specs.Prelude.{◌≡◌, IfOk};
ghost use Rattle.s7_script.specs.Printing.{IsPrintable};
ghost use Rattle.s7_tool_main.specs.Report.{line_by};
ghost use Rattle.s7_tool_main.specs.RigText.{head_of};

use s7_client::JobResult;
use s7_outer::{Memory, Octets};
use s7_script::{ScriptLine, print_result, print_tag};
use s7_symbol::TagKind;
use std::alloc::Global;

/// What a printed line needs of the line of a script.
#[derive(Clone, Copy, Debug, PartialEq, Eq)]
pub struct Head {
    /// The number of the line, 0 for the connect.
    pub line: u32,
    /// The type of the tag that the line names, if it names one.
    pub tag: Option<TagKind>,
}

impl Head {
    /// The head of a script's line.
    pub fn of(next: &ScriptLine) -> Head
        ensures { result ≡ head_of next.now }
    {
        Head {
            line: next.line,
            tag: next.tag,
        }
    }

    /// The line for the result of a job, with the value of the tag if one is named. Returns `Memory` if an allocation
    /// fails.
    pub fn print(self, alloc: Global, told: &JobResult) -> Result<Octets, Memory>
        requires { IsPrintable told.now }
        ensures { IfOk result (λ text. text ≡ line_by self.line self.tag told.now) }
    {
        match self.tag {
            Some(kind) => print_tag(alloc, self.line, kind, told),
            None => print_result(alloc, self.line, told),
        }
    }
}
