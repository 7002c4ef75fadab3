//! A server that logs: four threads serve requests and say so, in the files of `server.toml`. Two words are wanted, the
//! configuration and the folder for the files.
#![tactic(auto)]

use alog_server::{Client, Home, LogError, Work, start};
use anyhow::bail;
use std::sync::Wait;
use std::time::Clock;
use std::{env, fs};

/// What each thread does.
struct Requests;

impl<R: Wait + Clock> Work<R> for Requests {
    type Error = LogError;

    fn work<H: Home>(&self, rt: &R, thread: usize, client: &mut Client<H>) -> Result<(), LogError> {
        let net = client.logger("net")?;
        for _ in 0..1_000 {
            client.info(rt, &net, "a request was served")?;
        }
        if thread == 3 {
            client.error(rt, &net, "a request failed")?;
            client.dump_backtrace(rt, &net)?;
        }
        Ok(())
    }
}

fn main(rt: HostRuntime) -> anyhow::Result<()> {
    let words: Vec<String> = env::args(&rt)?.collect(rt.alloc())?;
    let [_, config, folder] = words.as_slice() else {
        bail!("wanted are a configuration and a folder");
    };
    let server = start(&rt, rt.alloc(), &fs::read(&rt, config)?, folder)?;
    let ran = server.run(&rt, 4, &Requests)?;
    let totals = ran.report.totals;
    println!(rt; "handled {} of {}", totals.handled, totals.asked)?;
    ran.error.map_or(Ok(()), |error| Err(error.into()))
}
