//! Runs a script of events against a model of CephFS's client, metadata server and object store, or one
//! against a store that gives up clones, and writes the journal of the run.
#![tactic(auto)]

mod command;
#[cfg(test)]
mod tests;

use command::ceph_main;
use cs_io::{StdSink, StdSource};
use cs_mdslog::MemLog;
use cs_objstore::MemStore;
use cs_status::Finished;
use std::process::ExitCode;
use std::rt::Env;
use std::{env, io};

// The words behind the program's name. A word that isn't UTF-8 makes a faulty command line, as no
// words do. The one other error of the words is want of memory.
fn words(rt: &(impl Env + AllocGlobal)) -> io::Result<Vec<String>> {
    let mut words = Vec::new(rt.alloc());
    match env::args(rt) {
        Ok(all) => {
            for word in all.skip(1) {
                words.push(word)?;
            }
            Ok(words)
        }
        Err(error) if error.kind() == io::ErrorKind::InvalidData => Ok(words),
        Err(error) => Err(error),
    }
}

fn main(rt: HostRuntime) -> ExitCode {
    let Ok(words) = words(&rt) else {
        return ExitCode::from(8);
    };
    let mut source = StdSource::new(rt.reader());
    let mut sink = StdSink::new(io::writer(&rt));
    let Finished {
        status,
        store: _,
        log: _,
    } = ceph_main(
        &rt,
        rt.alloc(),
        words.as_slice(),
        &mut source,
        &mut sink,
        MemStore::new(rt.alloc()),
        MemLog::new(rt.alloc()),
    );
    ExitCode::from(status)
}
