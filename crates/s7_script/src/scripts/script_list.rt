//! Scripts as lists of jobs.
ghost use Rattle.std.specs.Prelude.{◌≡◌};

use s7_client::Job;
use s7_symbol::TagKind;
use std::marker::Model;

/// A job, and the line of the script that names it.
#[derive(Debug, Drop)]
pub struct ScriptLine {
    /// The number of the line, from 1; all lines after line 4,294,967,295 have that number.
    pub line: u32,
    /// The job.
    pub job: Job,
    /// The type of the tag that the job gets or puts, if the line names one.
    pub tag: Option<TagKind>,
}

/// The jobs of a script in order. Contracts see them as a list.
#[derive(Debug, Drop)]
pub struct Script {
    lines: Vec<ScriptLine>,
}

impl Model for Script {
    ghost use Rattle.std.specs.Prelude.{List};
    ghost use Rattle.s7_script.specs.declared.scripts.script_list.ScriptLine.{ScriptLine};

    ghost Value = { List ScriptLine };

    ghost view = { λ s. s.lines.items };
}

impl Script {
    /// A script with the jobs of a vector, which isn't copied.
    pub fn of_vec(lines: Vec<ScriptLine>) -> Script
        ensures { result ≡ lines.items }
    {
        Script { lines }
    }

    /// The jobs, borrowed.
    pub fn as_slice(&self) -> &[ScriptLine]
        ensures { result.now ≡ self.now }
    {
        self.lines.as_slice()
    }

    /// The jobs as a vector, which isn't copied.
    pub fn into_vec(self) -> Vec<ScriptLine>
        ensures { result.items ≡ self }
    {
        self.lines
    }
}
