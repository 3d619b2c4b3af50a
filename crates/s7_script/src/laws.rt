//! Laws of area files, of printing and of scripts.
ghost use Rattle.s7_script.specs.Laws.{AreasMigrate, EndsPrint, ScriptsKeepLinks};
ghost use Rattle.s7_script.specs.ScriptSpelling.{ScriptsAreSpelled, ScriptsReadBack};
ghost use Rattle.s7_script.specs.SendSpelling.{SendsReadBack};

use s7_area::areas_join;

/// A law: if an area file, of either version, names areas and a guard, then the file that is written for them names the
/// same areas and the same guard.
pub fn areas_migrate()
    ensures { AreasMigrate }
{
    areas_join();
}

/// A law: the result of a job whose end has its form can be printed.
pub fn ends_print()
    ensures { EndsPrint }
{}

/// A law: no line of a script connects or disconnects.
pub fn scripts_keep_links()
    ensures { ScriptsKeepLinks }
{}

/// A law: the text that is written for blocks of 1 to 65,535 octets is read as these blocks, and each block that a sends
/// file names is one for which a text can be written. So what was read, once written, is read again as the same blocks.
pub fn sends_read_back()
    ensures { SendsReadBack }
{}

/// A law: the text that is written for jobs, a line for each, is read as these jobs.
pub fn scripts_read_back()
    ensures { ScriptsReadBack }
{}

/// A law: each job that a script without tags names is one for which a line can be written. So what was read, once
/// written, is read again as the same jobs.
pub fn scripts_are_spelled()
    ensures { ScriptsAreSpelled }
{}
