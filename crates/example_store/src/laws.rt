//! A get after a put, in the same run and in the next one.
ghost use Rattle.example_store.specs.NextRun.{GetFindsPut, SecondRunFindsPut, SecondRunGoesOn};

use jb_journal::Start;

/// Of replies that are those by the map, as a run's are.
pub fn get_finds_put()
    /// A get is replied the value of an earlier put of its key that no command between them has changed.
    ensures { GetFindsPut }
{}

/// A run of the store in a file, a crash, and a run of what it has left.
pub fn second_run<S: Start, T: Start>()
    /// Where the store is run again in what a crash has left of its file, it replies by what the first changes have
    /// made of the map, with all that it had replied to by the crash, if the file is honest.
    ensures goes_on { SecondRunGoesOn S.Start T.Start }
    /// A get of the second run is replied the value of a put that the first run had replied to, whatever crash came
    /// between them, where no command that was begun in between has changed its key.
    ensures finds { SecondRunFindsPut S.Start T.Start }
{}
