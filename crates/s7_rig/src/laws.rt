//! Laws of rigs.
ghost use Rattle.s7_rig.specs.Followed.{RigsFollow};
ghost use Rattle.s7_rig.specs.Formed.{RigsAreFormed};
ghost use Rattle.s7_rig.specs.Jobs.{JobsAreSettled, JobsComeOff};
ghost use Rattle.s7_rig.specs.Passwords.{PasswordsAreRead};
ghost use Rattle.s7_rig.specs.Questions.{QuestionsAreHeard};

use s7_client::ends_have_form;

/// A law: however a rig ran, each of its results is the result of an end that has the form of its job.
pub fn rigs_are_formed()
    ensures { RigsAreFormed }
{
    ends_have_form();
}

/// A law: however a rig ran, the results of each client are those of its script's jobs in order, and the numbers of its
/// entries rise over all its jobs. After a failed read of several items, a client that halts has only the result of its
/// last job.
pub fn rigs_follow()
    ensures { RigsFollow }
{}

/// A law: a session between two messages answers each question that a job of its client can ask by one message, the
/// first that the client hasn't read, and the client takes it as an answer to that question. This holds whichever state
/// gives the reply; for questions about blocks, whichever state of a plant. It also holds if the history was full for
/// the question or the clock failed for it: then the question is refused, and only for that reason of its own, not for
/// one of an earlier question. A name that names no block is refused, and so is the deletion or the download of a block
/// whose kind isn't stored. A password is judged by the link's guard. If an answer in user data, or the image of a
/// block, has more octets than fit one telegram, the link holds the rest, and an answer with further octets has the
/// next of them. An upload is held until its end. In a download the server asks for the image from its beginning to its
/// end, and then asks the plant to insert that very image.
pub fn questions_are_heard()
    ensures { QuestionsAreHeard }
{}

/// A law about octets that are a prefix of the expected output of a session for what its client sent. If they end a job
/// of this client, then both client and session are between two messages. If the job is a read of one item, of several
/// items or of a whole data block, and its code is 0, then it read what its entries read, in their order, each of one
/// part or one group of items. If the session is a link's on a book, these entries are calls of the link whose numbers
/// in the history rise, and the job read what the areas held at those entries. The first connect of a client succeeds.
pub fn jobs_are_settled()
    ensures { JobsAreSettled }
{}

/// A law: suppose that the session is a link's on a book, and that for no telegram of a job the history was full or the
/// clock failed. Then the job, if it can succeed and its client is connected, has code 0. So every read and every write
/// succeeds that is in range, fits, and needs no right that the link lacks.
pub fn jobs_come_off()
    ensures { JobsComeOff }
{}

/// A law: a session decodes the password that a client encodes.
pub fn passwords_are_read()
    ensures { PasswordsAreRead }
{}
