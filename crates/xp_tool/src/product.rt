// What a command makes of what it reads, before anything is written.
ghost use Rattle.std.specs.Prelude.{◌≡◌, ℕ, ◌<◌, ◌-◌, ◌^◌, [], true, None, IfOk, IfErr, Ok};
ghost use Rattle.xp_generator.specs.Generated.{generated};
ghost use Rattle.xp_lawful.specs.Built.{IsBuilt};
ghost use Rattle.xp_script.specs.Lawful.{IsLawful};
ghost use Rattle.xp_scenario.specs.Pokes.{poke_in};
ghost use Rattle.xp_scenario.specs.Text.{scenario_in};
ghost use Rattle.xp_tool.specs.Command.{end_of, is_plain, IsNoRun, IsNoScenario, IsNotBuilt, Leads, Replays, Runs};
ghost use Rattle.xp_tool.specs.Made.{IsMade, IsUnmade, IsUnmadeBy, Makes, refusal_of};
ghost use Rattle.xp_tool.specs.Plain.{ReadsNothing};

use crate::command::ToolCommand;
use crate::input::{read_dump, read_text};
use crate::status::{InputFault, Status};
use std::alloc::Global;
use std::thread::Threads;
use xp_base::words::Words;
use xp_dump::{dump, listing};
use xp_forms::fault::LineCause;
use xp_generator::generator::generate;
use xp_lawful::built::is_built;
use xp_outside::source::Source;
use xp_print::text::print;
use xp_report::summary::summary;
use xp_report::text::report;
use xp_scenario::fault::ScenarioFault;
use xp_scenario::poke::poke_place;
use xp_scenario::text::parse;
use xp_script::scenario::Scenario;
use xp_threads::gate::Gate;
use xp_threads::run::run_threads;
use xp_world::world::World;

/// What a command made of its input, or of its number.
#[derive(Drop)]
pub enum Product {
    /// The world that a scenario's replay left.
    Replayed(World),
    /// The world that a scenario's partitions left as threads.
    Ran(World),
    /// The words that a dump tells.
    Told(Words),
    /// The scenario of a number.
    Generated(Scenario),
}

impl Product {
    /// The world that is left of the product.
    pub fn into_end(self) -> Option<World>
        ensures { result ≡ end_of self }
    {
        match self {
            Product::Replayed(world) | Product::Ran(world) => Some(world),
            Product::Told(_) | Product::Generated(_) => None,
        }
    }
}

/// What a command made of its input, and the text that it writes of it.
#[derive(Drop)]
pub struct Made {
    pub product: Product,
    pub text: Vec<u8>,
}

/// What a command without threads makes of what it reads from a source, or why it makes nothing.
pub fn make<S: Source>(alloc: Global, command: ToolCommand, source: &mut S) -> Result<Made, Status>
    requires reads { S.faults source.old < 2 ^ 64 - 1 }
    requires plain { is_plain command ≡ true }
    ensures made { Makes command (S.left source.old) (S.left source.new)
        (S.faults source.old) (S.faults source.new) result }
    ensures unread { ReadsNothing command → source.new ≡ source.old }
{
    match command {
        ToolCommand::Replay => {
            let text = read_text(alloc, source)?;
            report_replay(alloc, &text)
        }
        ToolCommand::Run => unreachable!(),
        ToolCommand::Dump => {
            let text = read_text(alloc, source)?;
            dump_replay(alloc, &text)
        }
        ToolCommand::Decode => decode(alloc, source),
        ToolCommand::Gen { n } => print_generated(alloc, n),
        ToolCommand::Big { n } => summarize_generated(alloc, n),
    }
}

/// What a run in threads makes of what it reads from a source, or why it makes nothing.
pub fn make_run<R: Threads + Sync, S: Source, G: Gate + Sync>(
    rt: &R,
    alloc: Global,
    source: &mut S,
    gate: &G,
) -> Result<Made, Status>
    requires { S.faults source.old < 2 ^ 64 - 1 }
    ensures { Makes ToolCommand.Run (S.left source.old) (S.left source.new)
        (S.faults source.old) (S.faults source.new) result }
{
    let text = read_text(alloc, source)?;
    report_run(rt, alloc, &text, gate)
}

// The scenario that an input spells.
fn spelled(alloc: Global, input: &[u8]) -> Result<Scenario, Status>
    ensures spelled { IfOk result (λ scenario. scenario_in input.now ≡ Ok scenario) }
    ensures lawful { IfOk result (λ scenario. IsLawful scenario) }
    ensures unmade { IfErr result (λ status. IsUnmadeBy (IsNoScenario input.now) status) }
{
    match parse(alloc, input) {
        Ok(scenario) => Ok(scenario),
        Err(fault) => Err(refusal(fault)),
    }
}

// The world that a scenario leads to, where the rules of today can run it.
fn lead(alloc: Global, scenario: &Scenario) -> Result<World, Status>
    requires { IsLawful scenario.now }
    ensures leads { IfOk result (λ world. Leads scenario.now world) }
    ensures unmade { IfErr result (λ status. IsUnmadeBy (IsNotBuilt scenario.now) status) }
{
    if !is_built(scenario) {
        return Err(Status::BadInput(InputFault::Unbuilt));
    }
    match World::replay(alloc, scenario) {
        Ok(world) => Ok(world),
        Err(_) => Err(Status::NoMemory),
    }
}

// The status of a text that spells no scenario.
fn refusal(fault: ScenarioFault) -> Status
    ensures { result ≡ refusal_of fault }
{
    match fault {
        ScenarioFault::BadLine {
            line,
            column,
            cause,
        } => Status::BadInput(InputFault::BadLine {
            line,
            column,
            cause,
        }),
        ScenarioFault::TooMany { what, limit } => {
            Status::BadInput(InputFault::TooMany { what, limit })
        }
        ScenarioFault::Memory => Status::NoMemory,
    }
}

// The world that the scenario of an input leads to.
fn replay(alloc: Global, input: &[u8]) -> Result<World, Status>
    ensures replays { IfOk result (λ world. Replays input.now world) }
    ensures unmade { IfErr result (λ status. IsUnmadeBy (IsNoScenario input.now) status) }
{
    let scenario = spelled(alloc, input)?;
    lead(alloc, &scenario)
}

// The scenario that an input spells, where it pokes no word and the rules of today can run it.
fn spelled_to_run(alloc: Global, input: &[u8]) -> Result<Scenario, Status>
    ensures spelled { IfOk result (λ scenario. scenario_in input.now ≡ Ok scenario) }
    ensures lawful { IfOk result (λ scenario. IsLawful scenario) }
    ensures unpoked { IfOk result (λ scenario. poke_in input.now ≡ None) }
    ensures built { IfOk result (λ scenario. IsBuilt scenario) }
    ensures unmade { IfErr result (λ status. IsUnmadeBy (IsNoRun input.now) status) }
{
    let scenario = match parse(alloc, input) {
        Ok(scenario) => scenario,
        Err(fault) => return Err(refusal(fault)),
    };
    if let Some((line, column)) = poke_place(input) {
        let cause = LineCause::PokeInRun;
        return Err(Status::BadInput(InputFault::BadLine {
            line,
            column,
            cause,
        }));
    }
    if !is_built(&scenario) {
        return Err(Status::BadInput(InputFault::Unbuilt));
    }
    Ok(scenario)
}

// The world that the partitions of an input's scenario leave as threads.
fn run<R: Threads + Sync, G: Gate + Sync>(
    rt: &R,
    alloc: Global,
    input: &[u8],
    gate: &G,
) -> Result<World, Status>
    ensures runs { IfOk result (λ world. Runs input.now world) }
    ensures unmade { IfErr result (λ status. IsUnmadeBy (IsNoRun input.now) status) }
{
    let scenario = spelled_to_run(alloc, input)?;
    match run_threads(rt, alloc, &scenario, gate) {
        Ok(world) => Ok(world),
        Err(_) => Err(Status::NoMemory),
    }
}

// Runs the scenario that an input spells in threads, and makes its report.
fn report_run<R: Threads + Sync, G: Gate + Sync>(
    rt: &R,
    alloc: Global,
    input: &[u8],
    gate: &G,
) -> Result<Made, Status>
    ensures made { IfOk result (λ made. IsMade ToolCommand.Run input.now made) }
    ensures unmade { IfErr result (λ status. IsUnmade ToolCommand.Run input.now status) }
{
    let end = run(rt, alloc, input, gate)?;
    match report(alloc, &end.nodes) {
        Ok(text) => Ok(Made {
            product: Product::Ran(end),
            text,
        }),
        Err(_) => Err(Status::NoMemory),
    }
}

// Replays the scenario that an input spells, and makes its report.
fn report_replay(alloc: Global, input: &[u8]) -> Result<Made, Status>
    ensures made { IfOk result (λ made. IsMade ToolCommand.Replay input.now made) }
    ensures unmade { IfErr result (λ status. IsUnmade ToolCommand.Replay input.now status) }
{
    let world = replay(alloc, input)?;
    match report(alloc, &world.nodes) {
        Ok(text) => Ok(Made {
            product: Product::Replayed(world),
            text,
        }),
        Err(_) => Err(Status::NoMemory),
    }
}

// Replays the scenario that an input spells, and makes the dump of the words that it leaves.
fn dump_replay(alloc: Global, input: &[u8]) -> Result<Made, Status>
    ensures made { IfOk result (λ made. IsMade ToolCommand.Dump input.now made) }
    ensures unmade { IfErr result (λ status. IsUnmade ToolCommand.Dump input.now status) }
{
    let world = replay(alloc, input)?;
    match dump(alloc, &world.words) {
        Ok(bytes) => Ok(Made {
            product: Product::Replayed(world),
            text: bytes,
        }),
        Err(_) => Err(Status::NoMemory),
    }
}

// Reads a dump, and makes the listing of its words.
fn decode<S: Source>(alloc: Global, source: &mut S) -> Result<Made, Status>
    requires { S.faults source.old < 2 ^ 64 - 1 }
    ensures { Makes ToolCommand.Decode (S.left source.old) (S.left source.new)
        (S.faults source.old) (S.faults source.new) result }
{
    let words = read_dump(alloc, source)?;
    match listing(alloc, &words) {
        Ok(lines) => Ok(Made {
            product: Product::Told(words),
            text: lines,
        }),
        Err(_) => Err(Status::NoMemory),
    }
}

// The scenario of a number.
fn numbered_scenario(alloc: Global, n: u32) -> Result<Scenario, Status>
    ensures generated { IfOk result (λ scenario. scenario ≡ generated n) }
    ensures lawful { IfOk result (λ scenario. IsLawful scenario) }
    ensures unmade { IfErr result (λ status. status ≡ Status.NoMemory) }
{
    match generate(alloc, n) {
        Ok(scenario) => Ok(scenario),
        Err(_) => Err(Status::NoMemory),
    }
}

// Makes the scenario of a number, and its text.
fn print_generated(alloc: Global, n: u32) -> Result<Made, Status>
    ensures made { IfOk result (λ made. IsMade (ToolCommand.Gen n) [] made) }
    ensures unmade { IfErr result (λ status. IsUnmade (ToolCommand.Gen n) [] status) }
{
    let scenario = numbered_scenario(alloc, n)?;
    match print(alloc, &scenario) {
        Ok(text) => Ok(Made {
            product: Product::Generated(scenario),
            text,
        }),
        Err(_) => Err(Status::NoMemory),
    }
}

// Replays the scenario of a number, and makes the summary of the world that it leads to.
fn summarize_generated(alloc: Global, n: u32) -> Result<Made, Status>
    ensures made { IfOk result (λ made. IsMade (ToolCommand.Big n) [] made) }
    ensures unmade { IfErr result (λ status. IsUnmade (ToolCommand.Big n) [] status) }
{
    let scenario = numbered_scenario(alloc, n)?;
    let world = lead(alloc, &scenario)?;
    match summary(alloc, n, &world.nodes) {
        Ok(text) => Ok(Made {
            product: Product::Replayed(world),
            text,
        }),
        Err(_) => Err(Status::NoMemory),
    }
}
