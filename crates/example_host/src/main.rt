//! An event loop that logs. It starts no thread and waits for nobody: where a log would block it lets its worker write, and what is left then the
//! pool writes at its end. Its files are in memory, and it prints them.
#![tactic(auto)]

ghost use Rattle.std.specs.Prelude.{◌≡◌, ◌≤◌, ◌<◌, ◌+◌, [], length, vec_capacity, IfOk};
ghost use Rattle.std.specs.List.{AllByRecursion};
ghost use Rattle.alog_hosted.specs.Lent.{IsProducerOf};
ghost use Rattle.alog_hosted.specs.Workers.{IsWorkerOf};

use alog_config::{leaves, read};
use alog_hosted::{Host, Hosted, HostedProducer, HostedWorker, Once};
use alog_msg::Level;
use alog_pool::Report;
use alog_server::setup_of;
use alog_sink::MemStore;
use anyhow::bail;
use std::alloc::{AllocError, Global};

/// One worker and a queue of four places, which blocks where it is full. A message carries the time that its caller tells; these lines show none.
const CONFIG: &[u8] = b"queue = 4
[[sink]]
name = \"app\"
kind = \"memory\"
pattern = \"[%n] [%l] %v\"
[[logger]]
name = \"net\"
sinks = [\"app\"]
";

/// So many stores.
fn stores(alloc: Global, count: usize) -> Result<Vec<MemStore>, AllocError>
    ensures { IfOk result (λ v. length v.items ≡ count) }
{
    let mut stores = Vec::with_capacity(alloc, count)?;
    for _number in 0..count {
        stores.push_reserved(MemStore::new(alloc));
    }
    Ok(stores)
}

/// Logs a text to the logger of this number. As long as that would block, the worker writes what is there.
fn say(
    alloc: Global,
    hosted: &Hosted<MemStore>,
    producer: &mut HostedProducer,
    worker: &mut HostedWorker<MemStore>,
    logger: u32,
    text: &str,
) -> anyhow::Result<()>
    requires producer { IsProducerOf hosted.now producer.old }
    requires worker { IsWorkerOf hosted.now worker.old }
    requires logger { logger < length hosted.now.shared.loggers }
    ensures producer { IsProducerOf hosted.now producer.new }
    ensures worker { IsWorkerOf hosted.now worker.new }
{
    for _ in 0..8 {
        match producer.log_once(hosted, alloc, logger, Level::Info, 0, text, None)? {
            Once::Logged(_) => return Ok(()),
            Once::WouldBlock => {
                let _work = worker.work_some(hosted, 2);
            }
        }
    }
    bail!("no room")
}

/// Logs ten of them.
fn say_all(
    alloc: Global,
    hosted: &Hosted<MemStore>,
    producer: &mut HostedProducer,
    worker: &mut HostedWorker<MemStore>,
    logger: u32,
) -> anyhow::Result<()>
    requires producer { IsProducerOf hosted.now producer.old }
    requires worker { IsWorkerOf hosted.now worker.old }
    requires logger { logger < length hosted.now.shared.loggers }
    ensures producer { IsProducerOf hosted.now producer.new }
    ensures worker { IsWorkerOf hosted.now worker.new }
{
    for number in 0..10 {
        let text = format!(in alloc; "request {number} was served")?;
        say(alloc, hosted, producer, worker, logger, text.as_str())?;
    }
    Ok(())
}

/// Makes a producer and a worker, and logs ten texts.
fn serve(
    alloc: Global,
    host: &mut Host<MemStore>,
    hosted: &Hosted<MemStore>,
    producers: &mut Vec<HostedProducer>,
    workers: &mut Vec<HostedWorker<MemStore>>,
) -> anyhow::Result<()>
    requires hosted { hosted.now ≡ host.old.hosted }
    requires none { (producers.old.items ≡ []) × (workers.old.items ≡ []) }
    requires room { (1 ≤ vec_capacity producers.old) × (1 ≤ vec_capacity workers.old) }
    requires new { (host.old.made ≡ 0) × (host.old.hired ≡ 0) }
    ensures hosted { host.new.hosted ≡ host.old.hosted }
    ensures producers { AllByRecursion (IsProducerOf hosted.now) producers.new.items × (length producers.new.items ≡ host.new.made) }
    ensures workers { AllByRecursion (IsWorkerOf hosted.now) workers.new.items × (length workers.new.items ≡ host.new.hired) }
{
    let Some(net) = hosted.loggers().find("net") else {
        bail!("no such logger")
    };
    let mut producer = host.producer(hosted)?;
    let mut worker = match host.worker(hosted) {
        Ok(worker) => worker,
        Err(error) => {
            producers.push_reserved(producer);
            return Err(error.into());
        }
    };
    let said = say_all(alloc, hosted, &mut producer, &mut worker, net);
    producers.push_reserved(producer);
    workers.push_reserved(worker);
    said
}

/// Prints what became of all texts, and the files.
fn print(rt: &impl Print, report: &Report<MemStore>) -> anyhow::Result<()> {
    println!(rt;
        "handled {} of {}",
        report.totals.handled, report.totals.asked
    )?;
    for sink in &report.sinks {
        if let Some(store) = sink.store() {
            for (_name, bytes) in store.files() {
                print!(rt; "{}", str::from_utf8(bytes)?)?;
            }
        }
    }
    Ok(())
}

fn main(rt: HostRuntime) -> anyhow::Result<()> {
    let alloc = rt.alloc();
    let Ok(config) = read(alloc, CONFIG) else {
        bail!("no configuration")
    };
    let setup = setup_of(alloc, &config, stores(alloc, leaves(&config))?, 0)?;
    let Ok(mut producers) = Vec::with_capacity(alloc, 1) else {
        bail!("out of memory")
    };
    let Ok(mut workers) = Vec::with_capacity(alloc, 1) else {
        producers.destroy_empty();
        bail!("out of memory")
    };
    let (hosted, mut host) = match Host::open(alloc, setup) {
        Ok(both) => both,
        Err(error) => {
            producers.destroy_empty();
            workers.destroy_empty();
            return Err(error.into());
        }
    };
    let served = serve(alloc, &mut host, &hosted, &mut producers, &mut workers);
    match host.disband(hosted, producers, workers) {
        Ok(report) => print(&rt, &report)?,
        Err(_) => unreachable!(),
    }
    served
}
