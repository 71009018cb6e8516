// The schedule that is generated of a seed.
ghost use Rattle.std.specs.Prelude.{◌≡◌, ◌++◌, false, IfOk, OnOk};
ghost use Rattle.smp_schedule.specs.Generated.{draws, number_after, generator as generator_at, generated_client, generated_from, generated_payload, generated};

use crate::event::Event;
use crate::generator::Generator;
use crate::job::JobWords;
use crate::schedule::Schedule;
use smp_edge::Octets;
use smp_model::Ending;
use std::alloc::{AllocError, Global};

/// The bytes of the payload.
const PAYLOAD: u32 = 4000;

/// Adds so many bytes that are drawn.
fn add_bytes(bytes: &mut Vec<u8>, generator: &mut Generator, count: u32) -> Result<(), AllocError>
    ensures bytes { OnOk result (bytes.new.items ≡ bytes.old.items ++ draws count generator.old.number) }
    ensures after { OnOk result (generator.new ≡ generator_at (number_after count generator.old.number) generator.old.replies) }
{
    'bytes: for _i in 0..count {
        bytes.push(generator.byte())?;
    }
    Ok(())
}

/// Adds so many events that are drawn.
fn add_events(
    events: &mut Vec<Event>,
    generator: &mut Generator,
    count: u32,
) -> Result<(), AllocError>
    ensures { OnOk result (events.new.items ≡ events.old.items ++ generated_from count generator.old) }
{
    'events: for _i in 0..count {
        events.push(generator.event())?;
    }
    Ok(())
}

/// The payload of the image that a generated schedule uploads from `sample.img`, and the generator behind it.
fn draw_payload(alloc: Global, seed: u32) -> Result<(Vec<u8>, Generator), AllocError>
    ensures bytes { IfOk result (λ x. x.0.items ≡ generated_payload seed) }
    ensures after { IfOk result (λ x. x.1 ≡ generator_at (number_after 4000 seed) false) }
{
    let mut generator = Generator::new(seed);
    let mut bytes = Vec::new(alloc);
    add_bytes(&mut bytes, &mut generator, PAYLOAD)?;
    Ok((bytes, generator))
}

/// The 4000 bytes that a generated schedule's image has as its payload.
pub fn generated_payload(alloc: Global, seed: u32) -> Result<Octets, AllocError>
    ensures { IfOk result (λ payload. payload ≡ generated_payload seed) }
{
    let (bytes, _) = draw_payload(alloc, seed)?;
    Ok(Octets::from_vec(bytes))
}

/// The line of the client.
fn client(alloc: Global) -> Result<Event, AllocError>
    ensures { IfOk result (λ event. event ≡ generated_client) }
{
    Ok(Event::Client {
        number: 1,
        job: JobWords::Upload {
            image: 0,
            file: Octets::from_slice(alloc, b"sample.img")?,
            chunk: 240,
            ending: Ending::Test,
        },
    })
}

/// The schedule of a seed: a client uploads `sample.img`, and so many events follow, which are drawn behind the draws of the
/// payload.
pub fn generate(alloc: Global, seed: u32, count: u32) -> Result<Schedule, AllocError>
    ensures { IfOk result (λ schedule. schedule ≡ generated seed count) }
{
    let (_, mut generator) = draw_payload(alloc, seed)?;
    let mut events = Vec::new(alloc);
    events.push(client(alloc)?)?;
    add_events(&mut events, &mut generator, count)?;
    Ok(Schedule::new(events))
}
