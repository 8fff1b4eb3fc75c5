//! What a refused growth leaves: run this test with each allocation failing in turn.
use crate::stops::{after_crash, crash};
use crate::visits::{Work, fresh, visit_files};
use hosts_db::{HostStore, MemHosts};
use std::alloc::Global;
use std::test::*;
use test_kit::{are_same, call, model};

/// The calls behind the first start.
const SCRIPT: &str = "\
monitor b -5
start
seen b 8
acked b 3
quota b 5
watch b f 7
watch c f 7
watch b f 9
unwatch c f
unwatch * f
";

/// Makes the calls of the script on a store and on one in memory, up to the first that is refused. The next visit goes on from there,
/// since a store over files that want memory refuses all until they are opened anew.
#[derive(Drop)]
struct Growths {
    alloc: Global,
    model: MemHosts,
    // How many calls of the script are made.
    made: usize,
    // The last call, if it was refused.
    refused: &'static str,
    // Whether there was a store, since that was last asked.
    is_seen: bool,
    wrong: Option<&'static str>,
}

impl Growths {
    // Makes the call on the store in memory, and again where a growth was refused. Whether both stores show the same then.
    fn is_modelled<S: HostStore>(&mut self, store: &S, line: &str) -> bool {
        let is_made = call(&mut self.model, line) == "ok" || call(&mut self.model, line) == "ok";
        is_made && are_same(self.alloc, store, &self.model)
    }

    // What is found is what the calls that were made left, or the one that was refused too. (A start is made at each visit.)
    fn is_found<S: HostStore>(&mut self, store: &S) -> bool {
        if are_same(self.alloc, store, &self.model) {
            return true;
        }
        let refused = self.refused;
        if refused != "start" {
            self.made = self.made.saturating_add(1);
        }
        self.is_modelled(store, refused)
    }

    // Makes the call. Want of memory of the store's own comes just where it keeps copies; asked again, the call goes well.
    fn answer<S: HostStore>(&self, store: &mut S, line: &str) -> &'static str {
        let answer = call(store, line);
        let keeps_copies = line.starts_with("monitor") || line.starts_with("watch");
        let is_left = keeps_copies && are_same(self.alloc, store, &self.model);
        if answer == "starved" && is_left && call(store, line) == "ok" {
            return "ok";
        }
        answer
    }

    // Whether the call is made. One that is refused changes nothing that the store shows.
    fn goes<S: HostStore>(&mut self, store: &mut S, line: &'static str) -> bool {
        let answer = self.answer(store, line);
        let is_ok = answer == "ok";
        let is_so = if is_ok {
            self.is_modelled(store, line)
        } else {
            answer == "refused" && are_same(self.alloc, store, &self.model)
        };
        if !is_so {
            self.wrong = Some(line);
        }
        self.refused = if is_ok { "" } else { line };
        is_so && is_ok
    }

    fn goes_on<S: HostStore>(&mut self, store: &mut S) {
        for line in SCRIPT.lines().skip(self.made) {
            if !self.goes(store, line) {
                return;
            }
            self.made = self.made.saturating_add(1);
        }
    }

    fn told(&self) -> Option<&'static str> {
        let are_made = self.made == SCRIPT.lines().count();
        let unlike = (!are_made || !self.is_seen).then_some("no store in the end");
        self.wrong.or(unlike)
    }
}

impl Work for Growths {
    fn work<S: HostStore>(&mut self, store: &mut S) {
        self.is_seen = true;
        if self.wrong.is_some() {
            return;
        }
        if !self.is_found(store) {
            self.wrong = Some("the rows found");
            return;
        }
        if self.goes(store, "start") {
            self.goes_on(store);
        }
    }
}

// What goes wrong over files that are opened anew, and then behind a crash. Where a growth is refused in a sync, the files answer no
// more until a crash: so it may take both visits in front of one, but no more than one of those behind. Where there is no memory for the
// store in memory, nothing goes wrong.
fn wrong(alloc: Global) -> Option<&'static str> {
    let mut growths = Growths {
        alloc,
        model: model(alloc)?,
        made: 0,
        refused: "",
        is_seen: false,
        wrong: None,
    };
    let (_, files) = visit_files(alloc, fresh(alloc), ["", ""], &mut growths);
    let (_, mut files) = visit_files(alloc, files, ["", ""], &mut growths);
    growths.is_seen = false;
    crash(&mut files);
    let (_, files) = visit_files(alloc, files, ["", ""], &mut growths);
    after_crash(alloc, files, &mut growths);
    growths.told()
}

#[test]
fn growths_refused(rt: HostRuntime) -> Result<(), &'static str> {
    match wrong(rt.alloc()) {
        Some(line) => Err(line),
        None => Ok(()),
    }
}
