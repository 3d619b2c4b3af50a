//! Runs over a link: scripts against a server, and partners.

pub(crate) mod jobs;
pub(crate) mod partner_run;
pub(crate) mod report;
pub(crate) mod script_run;
