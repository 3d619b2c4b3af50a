//! Laws of results and of telegrams. They do nothing at run time.
ghost use Rattle.s7_client.specs.Causes.{CodesTellOfLinks, ConnectsAreGranted, OctetsEndOtherwise};
ghost use Rattle.s7_client.specs.Form.{EndsHaveForm};
ghost use Rattle.s7_client.specs.Fit.{JobsAskAll, TelegramsFit};

/// A law: every result has the form of its job.
///
/// If the code isn't 0, there are neither octets nor return codes. If it is 0: a read of one item gives only
/// octets, as many as the item has. A read or write of several items gives a return code for each item, of at most
/// twenty; the read also gives the octets of the items whose code is FF. Counts, lists and heads of blocks have
/// their lengths. An upload and a data block that is read give only octets. A status list gives an image that adds
/// up, and the image of `Status` says whether the controller runs. A clock that was read gives ten octets with a
/// valid date and time. All other jobs give nothing.
pub fn ends_have_form()
    ensures { EndsHaveForm }
{}

/// A law: on a connected client no message of a job exceeds the PDU that was granted, whatever was answered so far.
/// The number of unanswered questions never exceeds the number of jobs granted, or one if that is 0.
pub fn telegrams_fit()
    ensures { TelegramsFit }
{}

/// A law: a job asks all that it may. While it awaits answers, at least one question is unanswered, and no further one
/// may be asked: as many are unanswered as jobs were granted, or an answer refuses, or no question is left.
pub fn jobs_ask_all()
    ensures { JobsAskAll }
{}

/// A law: the code of an end that follows from octets, or from the transmission of a disconnect request, is none of the
/// three that only the link gives: 00090000 and 000A0000, that a transmit or a receive failed, and 02000000, that the
/// link wasn't ready in as many polls as allowed.
pub fn octets_end_otherwise()
    ensures { OctetsEndOtherwise }
{}

/// A law: the code of a job that was carried out says what became of its link. The link failed exactly once if the code
/// is 00090000 or 000A0000, and otherwise not at all. It wasn't ready as often as allowed if the code is 02000000, and
/// otherwise less often. Its stream ended only if the code is 00020000.
pub fn codes_tell_of_links()
    ensures { CodesTellOfLinks }
{}

/// A law: a connect on a client that isn't connected leaves it connected exactly if its code is 0. The PDU that was
/// granted is then from 64 to the one asked for, and the last sequence is 1.
pub fn connects_are_granted()
    ensures { ConnectsAreGranted }
{}
