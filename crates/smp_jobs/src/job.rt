// A client's job.
ghost use Rattle.std.specs.Prelude.{◌≡◌, ◌≤◌, ◌<◌, ◌/◌, ◌+◌, ◌*◌, ◌-◌, [], length, Some, true, false, IsOk, IfOk, IfErr, option_map};
ghost use Rattle.std.specs.String.{string_bytes};
ghost use Rattle.smp_jobs.specs.Jobs.{lists, sets, puts, gets, echoes, most_packets};
ghost use Rattle.smp_jobs.specs.Clients.{Client, begun, client_hears_bytes, client_waited};
ghost use Rattle.smp_jobs.specs.Tasks.{job_of, progress_in, progress_of, can_set, CanTake};
ghost use Rattle.smp_jobs.specs.States.{Stands, Turns, HearsWant, UploadBegins, UploadRefused, is_end, left, packet_in, printed_in};
ghost use Rattle.smp_jobs.specs.declared.moves.JobFault.TheVariants as job_faults;

use crate::ask::{VERSION, ask};
use crate::ending::is_end;
use crate::images::{digest_of, read_good};
use crate::moves::{JobFault, JobMove};
use crate::running::Running;
use crate::sets::can_set;
use crate::task::{Echo, Get, Put, Set, Task, Upload};
use crate::tasks;
use smp_client::Session;
use smp_edge::Octets;
use smp_model::{Ending, Pairs};
use std::alloc::Global;
use std::marker::Model;

/// The most packets of a job that writes or reads a file.
const FILE_PACKETS: u32 = 512;

/// A job of a client, and the one request that is open.
#[derive(Drop)]
pub struct Job {
    running: Running,
    is_over: bool,
}

impl Model for Job {
    ghost use Rattle.smp_jobs.specs.States.{JobState, IsSound};

    ghost Value = { JobState };

    ghost view = { λ job. record { running = job.running; is_over = job.is_over } };

    ghost invariant = { λ job. IsSound job.running job.is_over };
}

/// The most packets that an upload of so many bytes sends.
fn upload_packets(length: u32, chunk: u32) -> u32
    requires least { 32 ≤ chunk }
    ensures most { result ≡ 64 + 8 * (length / (chunk - 7) + 1) }
    ensures some { 1 ≤ result }
{
    64 + 8 * (length / (chunk - 7) + 1)
}

/// The job of a task, whose first packet is to be sent, and which may send so many.
fn begin(alloc: Global, task: Task, most: Option<u32>) -> Job
    requires fresh { progress_in task ≡ progress_of (job_of task) [] }
    requires most { most ≡ most_packets (job_of task) }
    ensures { Stands result (begun (job_of task)) }
{
    let mut session = Session::new(VERSION);
    ask(&mut session, &tasks::first(&task));
    let room = match most {
        None => None,
        Some(most) => Some(most - 1),
    };
    Job {
        running: Running {
            task,
            session,
            room,
            printed: Vec::new(alloc),
            alloc,
        },
        is_over: false,
    }
}

impl Job {
    /// The upload of a file to image 0, in parts of at most `chunk` bytes, 32 to 1900. The file is an image with the hash of its
    /// bytes, else it is a `BadImage`.
    pub fn upload(alloc: Global, file: Octets, chunk: u32, ending: Ending) -> Result<Job, JobFault>
        requires file { length file ≤ 4294967295 }
        requires least { 32 ≤ chunk }
        requires most { chunk ≤ 1900 }
        ensures begun { IfOk result (λ job. UploadBegins job 0 file chunk ending) }
        ensures refused { IfErr result (UploadRefused file) }
    {
        Job::upload_to(alloc, 0, file, chunk, ending)
    }

    /// The same to the image with this number, 0 or 1.
    pub fn upload_to(
        alloc: Global,
        image: u32,
        file: Octets,
        chunk: u32,
        ending: Ending,
    ) -> Result<Job, JobFault>
        requires image { image ≤ 1 }
        requires file { length file ≤ 4294967295 }
        requires least { 32 ≤ chunk }
        requires most { chunk ≤ 1900 }
        ensures begun { IfOk result (λ job. UploadBegins job image file chunk ending) }
        ensures refused { IfErr result (UploadRefused file) }
    {
        let info = match read_good(file.as_slice()) {
            Ok(info) => info,
            Err(fault) => return Err(JobFault::BadImage(fault)),
        };
        let digest = digest_of(file.as_slice());
        let most = upload_packets(file.as_slice().len() as u32, chunk);
        let hash = info.hash;
        let task = Task::Upload(Upload {
            image,
            file,
            digest,
            hash,
            chunk,
            ending,
        });
        Ok(begin(alloc, task, Some(most)))
    }

    /// The list of the images of a device. It takes no memory yet.
    pub fn list(alloc: Global) -> Result<Job, JobFault>
        ensures ok { IsOk result }
        ensures begun { IfOk result (λ job. Stands job (begun lists)) }
    {
        Ok(begin(alloc, Task::List, None))
    }

    /// Whether a job may write these settings: 1 to 254, with names of 1 to 32 bytes that are text, and values of at most 128.
    pub fn can_set(pairs: &Pairs) -> bool
        ensures { result ≡ can_set pairs.now }
    {
        can_set(pairs.as_slice())
    }

    /// Writes settings, one after another, and saves. It takes no memory yet.
    pub fn set(alloc: Global, pairs: Pairs) -> Result<Job, JobFault>
        requires { can_set pairs ≡ true }
        ensures ok { IsOk result }
        ensures begun { IfOk result (λ job. Stands job (begun (sets pairs))) }
    {
        Ok(begin(alloc, Task::Set(Set { pairs, count: 0 }), None))
    }

    /// Writes a file on the device under a name of 1 to 64 bytes.
    pub fn put(alloc: Global, name: &str, file: Octets) -> Result<Job, JobFault>
        requires some { 1 ≤ length name.now }
        requires name { length name.now ≤ 64 }
        requires file { length file ≤ 4294967295 }
        ensures begun { IfOk result (λ job. Stands job (begun (puts name.now file))) }
        ensures refused { IfErr result (λ fault. fault ≡ job_faults.OutOfMemory) }
    {
        let Ok(name) = String::from_str(alloc, name) else {
            return Err(JobFault::OutOfMemory);
        };
        Ok(begin(alloc, Task::Put(Put { name, file }), Some(FILE_PACKETS)))
    }

    /// Reads the file of the device with this name of 1 to 64 bytes.
    pub fn get(alloc: Global, name: &str) -> Result<Job, JobFault>
        requires some { 1 ≤ length name.now }
        requires name { length name.now ≤ 64 }
        ensures begun { IfOk result (λ job. Stands job (begun (gets name.now))) }
        ensures refused { IfErr result (λ fault. fault ≡ job_faults.OutOfMemory) }
    {
        let Ok(name) = String::from_str(alloc, name) else {
            return Err(JobFault::OutOfMemory);
        };
        let held = Vec::new(alloc);
        Ok(begin(
            alloc,
            Task::Get(Get {
                name,
                held,
                len: None,
            }),
            Some(FILE_PACKETS),
        ))
    }

    /// Has the device echo a text of 1 to 1024 bytes.
    pub fn echo(alloc: Global, text: &str) -> Result<Job, JobFault>
        requires some { 1 ≤ length text.now }
        requires text { length text.now ≤ 1024 }
        ensures begun { IfOk result (λ job. Stands job (begun (echoes text.now))) }
        ensures refused { IfErr result (λ fault. fault ≡ job_faults.OutOfMemory) }
    {
        let Ok(text) = String::from_str(alloc, text) else {
            return Err(JobFault::OutOfMemory);
        };
        Ok(begin(alloc, Task::Echo(Echo { text }), None))
    }

    /// The packet to send. It stays the same until a move is `Send`.
    pub fn packet(&self) -> &[u8]
        ensures { result.now ≡ packet_in self.now }
    {
        self.running.session.packet()
    }

    /// What a job prints that is done. Nothing before, and nothing of a job that failed.
    pub fn result(&self) -> &[u8]
        ensures { result.now ≡ printed_in self.now }
    {
        self.running.printed.as_slice()
    }

    /// Whether the job has ended.
    pub fn is_over(&self) -> bool
        ensures { result ≡ self.now.is_over }
    {
        self.is_over
    }

    /// Hears a packet. `Over` comes exactly where the job had ended before, and then nothing changes.
    pub fn hear(&mut self, packet: &[u8]) -> JobMove
        ensures over { self.old.is_over ≡ true → (result ≡ JobMove.Over) × (self.new ≡ self.old) }
        ensures heard { (c : Client) → c.ended ≡ None → Stands self.old c → Turns (HearsWant c packet.now) self.new result (client_hears_bytes c packet.now) }
        ensures ends { self.new.is_over ≡ is_end result }
        ensures falls { self.old.is_over ≡ false → left self.new < left self.old }
    {
        if self.is_over {
            return JobMove::Over;
        }
        let made = self.running.hear(packet);
        self.is_over = is_end(made);
        made
    }

    /// Ends a wait in which the answer did not come. `Over` comes as in [`Job::hear`]. It takes no memory.
    pub fn quiet(&mut self) -> JobMove
        ensures over { self.old.is_over ≡ true → (result ≡ JobMove.Over) × (self.new ≡ self.old) }
        ensures waited { (c : Client) → c.ended ≡ None → Stands self.old c → Turns ⊥ self.new result (client_waited c) }
        ensures ends { self.new.is_over ≡ is_end result }
        ensures falls { self.old.is_over ≡ false → left self.new < left self.old }
    {
        if self.is_over {
            return JobMove::Over;
        }
        let made = self.running.quiet();
        self.is_over = is_end(made);
        made
    }
}
