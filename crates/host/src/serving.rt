//! Serving a list of requests from new.
ghost use Rattle.std.specs.Prelude.{◌≡◌, map, IfOk, Ok, MatchResult};
ghost use Rattle.script.specs.declared.fault.LoadError.TheVariants.{Memory};
ghost use Rattle.script.specs.Drafts.{Gives};
ghost use Rattle.script.specs.Programs.{program_of};
ghost use Rattle.script.specs.Reading.{reading};
ghost use Rattle.rules.specs.Calling.{request_of, run_from, run};
ghost use Rattle.rules.specs.Laws.{LabelsFlow, LabelsAreLevels, RefusalsAlterNothing};
ghost use Rattle.host.specs.Hosts.{program_in, state_in, Answers};
ghost use Rattle.host.specs.Promises.{ran_of, run_of, KeepsSecrets, OwesEach, KeepsValues};

use crate::host::Host;
use order::Order;
use rules::calls::{Answer, Request};
use script::fault::LoadError;
use script::load;
use script::program::Program;
use std::alloc::Global;
use store::tables::Tables;

/// What serving a list came to: the answers, in order, and the host after them.
#[derive(Drop)]
pub struct Served {
    pub answers: Vec<Answer>,
    pub host: Host,
}

impl Host {
    /// Serves one request.
    pub fn answer<O: Order>(&mut self, order: &O, request: &Request) -> Answer
        ensures { Answers (O.Order.levels order.now) self.old (request_of request.now) result self.new }
    {
        match request {
            Request::Make {
                bearer,
                class,
                level,
            } => self.make(order, *bearer, *class, *level),
            Request::Post {
                bearer,
                home,
                number,
                method,
                arguments,
            } => self.post(
                order,
                *bearer,
                *home,
                *number,
                *method,
                arguments.as_slice(),
            ),
            Request::Turn {
                bearer,
                home,
                number,
            } => self.turn(order, *bearer, *home, *number),
            Request::Collect {
                bearer,
                home,
                number,
            } => self.collect(order, *bearer, *home, *number),
            Request::Take { bearer, class } => self.note(order, *bearer, *class),
        }
    }

    /// Serves requests one after the other; or memory for the answers was short.
    fn answer_all<O: Order>(
        &mut self,
        heap: Global,
        order: &O,
        requests: &[Request],
    ) -> Result<Vec<Answer>, LoadError>
        ensures served { MatchResult result (λ v. run_from (O.Order.levels order.now) (program_in self.old) (state_in self.old) (map request_of requests.now) ≡ record { answers = v.items; state = state_in self.new }) (λ e. e ≡ Memory) }
        ensures program { self.new.program ≡ self.old.program }
    {
        let mut answers = Vec::new(heap);
        // A `for`: with `map` and `collect` the proof did not close, since nothing is known of a host that a closure altered.
        for request in requests {
            let answer = self.answer(order, request);
            answers.push(answer)?;
        }
        Ok(answers)
    }
}

/// From new, serves a list of requests with a program; or memory for the answers was short.
fn serve_program<O: Order>(
    heap: Global,
    order: &O,
    program: Program,
    requests: &[Request],
) -> Result<Served, LoadError>
    ensures { MatchResult result (λ s. (run (O.Order.levels order.now) (program_of program) (map request_of requests.now) ≡ ran_of s) × (program_in s.host ≡ program_of program)) (λ e. e ≡ Memory) }
{
    let mut host = Host {
        program: Some(program),
        tables: Tables::new(),
    };
    let answers = host.answer_all(heap, order, requests)?;
    Ok(Served { answers, host })
}

/// From new, loads a script text under an order and serves a list of requests; gives the answers and the host after them, or the text's first
/// fault, or want of memory.
///
/// * `exact`: the answers and the tables are those of the rules for this order, text and list.
/// * `loaded`: the host's program is the one that the text is read as.
/// * `secret`: to every reader, any other list that is alike to it would have brought the same answers, values with their labels.
/// * `labels`, `levels`: every label is a level, and flows to the level of the object that it stands in or waits for.
/// * `owed`, `kept`: at each level the open futures are those that calls in line there owe, one each, and a value that a future held at any
///   time of the run is there at its end.
/// * `refusals`: an answer of 1 to 9 leaves every table as it was.
pub fn serve<O: Order>(
    heap: Global,
    order: &O,
    text: &[u8],
    requests: &[Request],
) -> Result<Served, LoadError>
    ensures exact { Gives ran_of result (run_of (O.Order.levels order.now) text.now (map request_of requests.now)) }
    ensures loaded { IfOk result (λ s. reading (O.Order.levels order.now).count text.now ≡ Ok (program_in s.host)) }
    ensures secret { IfOk result (KeepsSecrets (O.Order.levels order.now) (map request_of requests.now)) }
    ensures labels { IfOk result (λ s. LabelsFlow (O.Order.levels order.now) (state_in s.host)) }
    ensures levels { IfOk result (λ s. LabelsAreLevels (O.Order.levels order.now) (state_in s.host)) }
    ensures owed { IfOk result OwesEach }
    ensures kept { IfOk result (KeepsValues (O.Order.levels order.now) (map request_of requests.now)) }
    ensures refusals { RefusalsAlterNothing }
{
    let program = load(heap, order, text)?;
    serve_program(heap, order, program, requests)
}
