//! What holds of the words themselves.
ghost use Rattle.station_words.specs.Complaints.{ComplainsOfNoCall};
ghost use Rattle.station_words.specs.QueriesBefore.{KeepsQueries};
ghost use Rattle.station_words.specs.ServeBefore.{KeepsServe};
ghost use Rattle.station_words.specs.Words.{ChecksAreNoCall};

/// Words that give `serve` each of `--feeds`, `--askers`, `--feed-port`, `--ask-port` and `--rounds`, and none of
/// `--ask-address`, `--log`, `--feed-from` and `--ask-from`, mean what they meant while these five had to be given and those
/// four weren't known.
pub fn old_words_keep_their_meaning()
    ensures { KeepsServe }
{}

/// The words of a query behind `replay`, or behind `recall` and a file, ask for that query, and for nothing else.
pub fn queries_keep_their_meaning()
    ensures { KeepsQueries }
{}

/// Words that begin with `--check-options` are no call: whoever asks for a check asks for nothing else.
pub fn checks_are_no_call()
    ensures { ChecksAreNoCall }
{}

/// What a complaint says of words, it says of no call.
pub fn complaints_are_of_no_call()
    ensures { ComplainsOfNoCall }
{}
