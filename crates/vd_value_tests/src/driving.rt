//! Drivers as the standard describes their assignments: a single one, and those of a small design.

ghost use Rattle.std.specs.Prelude.{◌≡◌, ◌<◌, length, IfOk};
ghost use Rattle.vd_kernel.specs.Orders.{shape_of, IsRingFree};

use anyhow::bail;
use std::alloc::{AllocError, Global};
use vd_kernel::{
    Delay, DriverId, DriverList, DriverShape, Drivers, ScalarShape, Shape, SignalId, Source,
    Transaction,
};
use vd_values::Scalar;

const LOW: Scalar = Scalar::Literal(2);

/// The position of a literal.
fn position(value: Scalar) -> u32 {
    match value {
        Scalar::Literal(position) => position,
        _ => 99,
    }
}

/// Adds a word behind a text.
fn add(text: &mut String, word: &str) -> Result<(), AllocError> {
    if !text.is_empty() {
        text.push(' ')?;
    }
    text.push_str(word)
}

/// A time, or that there is none.
fn time_text(alloc: Global, time: Option<u64>) -> Result<String, AllocError> {
    match time {
        Some(time) => format!(in alloc; "{time}"),
        None => String::from_str(alloc, "none"),
    }
}

/// The word of a truth.
fn truth(holds: bool) -> &'static str {
    if holds { "yes" } else { "no" }
}

/// Puts a transaction for the literal of a position.
fn put(
    alloc: Global,
    list: &mut DriverList,
    delay: Delay,
    time: u64,
    position: u32,
) -> Result<(), AllocError> {
    let value = Scalar::Literal(position);
    list.assign(alloc, delay, Transaction { time, value })
}

/// What a driver is asked.
fn asked(alloc: Global, list: &DriverList, kind: &str, time: u64) -> anyhow::Result<String> {
    match kind {
        "next" => Ok(time_text(alloc, list.next_time())?),
        "due" => Ok(String::from_str(alloc, truth(list.is_due(time)))?),
        "value" => {
            let position = position(list.current());
            Ok(format!(in alloc; "{position}")?)
        }
        _ => bail!("there is no step {kind}"),
    }
}

/// Carries out a step of a driver.
fn step(
    alloc: Global,
    list: &mut DriverList,
    words: &[&str],
    answer: &mut String,
) -> anyhow::Result<()> {
    match words {
        [kind, time, value] => {
            let delay = if *kind == "transport" {
                Delay::Transport
            } else {
                Delay::Inertial
            };
            put(
                alloc,
                list,
                delay,
                time.parse::<u64>()?,
                value.parse::<u32>()?,
            )?;
        }
        [kind, time] => {
            let time = time.parse::<u64>()?;
            if *kind == "update" {
                list.update(time);
            } else {
                add(answer, asked(alloc, list, kind, time)?.as_str())?;
            }
        }
        [kind] => add(answer, asked(alloc, list, kind, 0)?.as_str())?,
        _ => bail!("there is no such step"),
    }
    Ok(())
}

/// Carries out a step of a driver.
fn take(
    alloc: Global,
    list: &mut DriverList,
    words: &str,
    answer: &mut String,
) -> anyhow::Result<()> {
    let words: Vec<&str> = words.split_whitespace().collect(alloc)?;
    step(alloc, list, &words, answer)
}

/// The answers of a driver that is low in the beginning.
fn of_list(alloc: Global, steps: &str) -> anyhow::Result<String> {
    let mut list = DriverList::new(alloc, LOW);
    let mut answer = String::new(alloc);
    for words in steps.split(',') {
        take(alloc, &mut list, words, &mut answer)?;
    }
    Ok(answer)
}

fn signal(
    alloc: Global,
    sources: &[Source],
    actual: Option<SignalId>,
) -> Result<ScalarShape, AllocError>
    ensures sources { IfOk result (λ s. s.sources ≡ sources.now) }
    ensures actual { IfOk result (λ s. s.actual ≡ actual) }
{
    Ok(ScalarShape {
        resolved: true,
        initial: LOW,
        sources: Vec::from_slice(alloc, sources)?,
        actual,
    })
}

/// A signal that a process and a port inside drive, and a port of another instance that reads it.
fn bus(alloc: Global) -> Result<Shape, AllocError>
    ensures ring_free { IfOk result (λ s. IsRingFree (shape_of s.scalars.items)) }
    ensures signals { IfOk result (λ s. length s.scalars.items ≡ 3) }
    ensures drivers { IfOk result (λ s. length s.drivers.items ≡ 2) }
{
    let outer = signal(
        alloc,
        &[
            Source::Driver(DriverId::of(0)),
            Source::Port(SignalId::of(1)),
        ],
        None,
    )?;
    let inner = signal(alloc, &[Source::Driver(DriverId::of(1))], None)?;
    let reader = signal(alloc, &[], Some(SignalId::of(0)))?;
    let mut scalars = Vec::new(alloc);
    scalars.push(outer)?;
    scalars.push(inner)?;
    scalars.push(reader)?;
    let mut drivers = Vec::new(alloc);
    drivers.push(DriverShape { initial: LOW })?;
    drivers.push(DriverShape { initial: LOW })?;
    Ok(Shape { scalars, drivers })
}

/// Adds what a signal has: its value, whether it has an event, and the value before its latest event.
fn add_signal(
    alloc: Global,
    drivers: &Drivers,
    number: usize,
    answer: &mut String,
) -> Result<(), AllocError>
    requires signals { length drivers.now.signals ≡ 3 }
    requires number { number < 3 }
{
    let signal = SignalId::of(number);
    let value = position(drivers.effective(signal));
    let event = truth(drivers.event(signal));
    let last = position(drivers.last(signal));
    let text = format!(in alloc; "{value}:{event}:{last}")?;
    add(answer, text.as_str())
}

/// Adds what all signals have, and the time of the next transaction.
fn add_signals(alloc: Global, drivers: &Drivers, answer: &mut String) -> Result<(), AllocError>
    requires { length drivers.now.signals ≡ 3 }
{
    for number in 0..3 {
        add_signal(alloc, drivers, number, answer)?;
    }
    let next = time_text(alloc, drivers.next_time())?;
    add(answer, next.as_str())
}

/// Takes both drivers to a time. In front stands whether something is due then.
fn go(
    alloc: Global,
    drivers: &mut Drivers,
    time: u64,
    answer: &mut String,
) -> Result<(), AllocError>
    requires { length drivers.old.signals ≡ 3 }
    ensures { length drivers.new.signals ≡ 3 }
{
    add(answer, truth(drivers.due(time)))?;
    drivers.update(time);
    add_signals(alloc, drivers, answer)
}

/// Assigns to a driver of the design, and takes it to two times.
fn assign_and_go(
    alloc: Global,
    drivers: &mut Drivers,
    numbers: [u64; 5],
    answer: &mut String,
) -> anyhow::Result<()>
    requires signals { length drivers.old.signals ≡ 3 }
    requires drivers { length drivers.old.drivers ≡ 2 }
{
    let [driver, value, delay, first, second] = numbers;
    if driver >= 2 || value >= 9 || delay >= 1000 {
        bail!("there is no such assignment");
    }
    let value = Scalar::Literal(value as u32);
    drivers.assign(DriverId::of(driver as usize), value, 0, delay, false)?;
    add_signals(alloc, drivers, answer)?;
    add(answer, truth(drivers.due(delay.saturating_sub(1))))?;
    go(alloc, drivers, first, answer)?;
    go(alloc, drivers, second, answer)?;
    Ok(())
}

/// The answers of the small design.
fn of_bus(alloc: Global, numbers: [u64; 5]) -> anyhow::Result<String> {
    let shape = bus(alloc)?;
    let mut drivers = Drivers::new(alloc, &shape)?;
    let mut answer = String::new(alloc);
    add_signals(alloc, &drivers, &mut answer)?;
    assign_and_go(alloc, &mut drivers, numbers, &mut answer)?;
    Ok(answer)
}

/// The answers of the small design, by words.
fn of_words(alloc: Global, words: &str) -> anyhow::Result<String> {
    let words: Vec<&str> = words.split(' ').collect(alloc)?;
    let [driver, value, delay, first, second] = words.as_slice() else {
        bail!("there are five numbers");
    };
    let numbers = [
        driver.parse::<u64>()?,
        value.parse::<u64>()?,
        delay.parse::<u64>()?,
        first.parse::<u64>()?,
        second.parse::<u64>()?,
    ];
    of_bus(alloc, numbers)
}

/// The answer of `list STEP, STEP, ..` or `bus DRIVER VALUE DELAY TIME TIME`.
pub fn answer(alloc: Global, words: &str) -> anyhow::Result<String> {
    match words.split_once(' ') {
        Some(("list", steps)) => of_list(alloc, steps),
        Some(("bus", numbers)) => of_words(alloc, numbers),
        _ => bail!("there is no such design"),
    }
}
