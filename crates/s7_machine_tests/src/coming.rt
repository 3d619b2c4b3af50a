//! How the links of callers that come and go are answered.
use crate::called::Left;
use crate::line::Line;
use crate::telegrams::{ANSWER, CONFIRM, GRANTED, NO_ROOM, are};
use s7_listener::Served;
use s7_outer::Octets;

/// The number of links that were opened, of reads that were answered with the data, and of reads that were refused.
#[derive(Drop)]
struct Answers {
    opened: usize,
    read: usize,
    refused: usize,
}

impl Answers {
    /// Counts the answer to a read.
    fn count_read(&mut self, answer: &[u8]) {
        if answer == ANSWER {
            self.read = self.read.saturating_add(1);
        }
        if answer == NO_ROOM {
            self.refused = self.refused.saturating_add(1);
        }
    }

    /// Counts the answers on one link.
    fn count(&mut self, answers: &[Octets]) -> Option<()> {
        let (opened, reads) = answers.split_at_checked(2)?;
        if are(opened, &[CONFIRM, GRANTED]) {
            self.opened = self.opened.saturating_add(1);
        }
        for answer in reads {
            self.count_read(answer.as_slice());
        }
        Some(())
    }

    /// Counts the answers that came to one caller.
    fn count_all(&mut self, answers: &[Octets]) -> Option<()> {
        for link in answers.chunks(4) {
            self.count(link)?;
        }
        Some(())
    }
}

/// The counts of the links of all callers.
fn answers_in(came: &[Vec<Octets>]) -> Option<Answers> {
    let mut all = Answers {
        opened: 0,
        read: 0,
        refused: 0,
    };
    for answers in came {
        all.count_all(answers.as_slice())?;
    }
    Some(all)
}

/// Reports whether the links have the numbers from 1 on.
fn are_in_order(links: &[Served<Line>]) -> bool {
    let mut link = 0u32;
    for served in links {
        link = link.saturating_add(1);
        if served.link != link {
            return false;
        }
    }
    true
}

/// Reports whether the links of a server have the numbers from 1 on.
fn are_numbered(left: &Left) -> bool {
    match &left.run {
        Some(run) => are_in_order(run.links.as_slice()),
        None => false,
    }
}

/// Reports whether all links were opened, and these numbers of reads were answered with the data and refused.
fn are_counted(came: &[Vec<Octets>], read: usize, refused: usize) -> bool {
    match answers_in(came) {
        Some(all) => all.opened == 200 && all.read == read && all.refused == refused,
        None => false,
    }
}

/// Reports whether all links were opened and ended, and these numbers of reads were answered with the data and refused.
pub(crate) fn are_answered(left: &Left, read: usize, refused: usize) -> bool {
    are_counted(left.came.as_slice(), read, refused) && are_numbered(left)
}
