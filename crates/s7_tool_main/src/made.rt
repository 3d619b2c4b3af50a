//! Rigs whose areas and scripts are made from a seed.

pub(crate) mod gen_run;
pub(crate) mod made_areas;
pub(crate) mod made_report;
pub(crate) mod made_scripts;
