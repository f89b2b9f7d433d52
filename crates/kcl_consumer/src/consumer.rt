//! The consumer of a lease, and its stage after each answer to a command. A tenure is one worker's hold on a lease. The
//! consumer's commands are: OpenShard, after which the tenure may read; Read, which fetches a batch; Give, which
//! reports the oldest batch as processed; and Mark, which sets the lease's checkpoint. The reach is the read position.
//! The ring holds the batches that were read but not yet reported as processed. A consumer is over when it has ended.
ghost use Rattle.std.specs.Prelude.{◌≡◌, ◌<◌, ℕ, false, length, List, [], ◌∷◌, IsSome, IfOk, OnOk, OnErr, Some, None};
ghost use Rattle.std.specs.Prelude.{Option, Bool};
ghost use Rattle.kcl_defs.specs.declared.consumer.Ask.{Ask};
ghost use Rattle.kcl_defs.specs.Consumers.{Past, Answered, Called, Losing, calls_after, Giving, Opening, due_call};
ghost use Rattle.kcl_defs.specs.Consumers.{over_at, next_command, stage_after, after_answer, after_end, after_open};
ghost use Rattle.kcl_defs.specs.Consumers.{progress_of, after_loss, first_position, last_number_in, target_of, given};
ghost use Rattle.kcl_defs.specs.Consumers.{given_after, after_give, after_mark, after_read, progress_over};
ghost use Rattle.kcl_defs.specs.Consumers.{progress_refused};
ghost use Rattle.kcl_defs.specs.Workers.{is_giving_stage, opens_or_marks};
ghost use Rattle.kds_defs.specs.Kinds.{is_service};
ghost use Rattle.kds_defs.specs.Lawful.{IsLawfulCommand, IsLimit};
ghost use Rattle.kcl_consumer.specs.Stages.{stage_of, IsKept};
ghost use Rattle.kds_defs.specs.declared.command.Target.{Target};
ghost use Rattle.kcl_defs.specs.declared.consumer.Fetched.{Fetched};
ghost use Rattle.kds_defs.specs.declared.limits.TheConstants.{PENDING_READS};
ghost use Rattle.kcl_defs.specs.declared.consumer.Tenancy.{Tenancy};
ghost use Rattle.kcl_defs.specs.Lives.{Deal, IsInStep, IsLife, IsLifeAmong, reads_after, gives_after};
ghost use Rattle.kcl_consumer.specs.Standing.{HasCalled, IsAsBefore, StandsFor};
ghost use Rattle.kcl_consumer.specs.Fetchings.{IsFetching};

use crate::ahead::Ahead;
use crate::positions::{first_position, last_in};
use crate::processor::Processor;
use crate::stage::ConsumerStage;
use kcl_defs::{Ask, Due, Fetched, Progress, Tenancy, Why};
use kds_base::{Checkpoint, Memory, Seq, ShardRef, TenureNo};
use kds_defs::{Answer, Command, Refusal, Reply, Stored, Target, let_go};
use std::marker::Model;

/// Returns the checkpoint that the consumer has to set after the processor returned `asked` for `batch`, or `None` if
/// it has to set none.
fn target_after(asked: Ask, batch: &[Stored]) -> Option<Target>
    ensures { result ≡ target_of asked batch.now }
{
    match asked {
        Ask::None => None,
        Ask::At(seq) => Some(Target::At(seq)),
        Ask::Last => match last_in(batch) {
            Some(seq) => Some(Target::At(seq)),
            None => None,
        },
        Ask::End => Some(Target::End),
    }
}

/// What the consumer does after the answer to a Read. `Read`: it keeps this batch and this new read position.
/// `Nothing`: it reads again. `Left`: it stops for this reason.
#[derive(Drop)]
enum Fetching {
    Read(Fetched, u64),
    Nothing,
    Left(Why),
}

/// Returns what the consumer does after `answer`, the answer to a Read.
fn fetching_after(answer: Answer) -> Fetching
    ensures { IsFetching answer result }
{
    match answer {
        Ok(reply) => match reply {
            Reply::Read { batch, reach, end } => Fetching::Read(
                Fetched { batch, ended: end },
                reach,
            ),
            _ => Fetching::Nothing,
        },
        Err(Refusal::ShardGone) => Fetching::Left(Why::Gone),
        Err(_) => Fetching::Left(Why::Lost),
    }
}

/// Returns the consumer's stage once its first batch has been reported as processed and removed from the ring. `ended`
/// says whether the read of that batch reached the shard's end. `asked` is the checkpoint to set, if any. `lost` says
/// whether the lease is known to be lost.
fn stage_after_give(ahead: &Ahead, ended: bool, asked: Option<Target>, lost: bool) -> ConsumerStage
    ensures stage { (reach : ℕ) (f : Fetched) → f.ended ≡ ended
        → stage_of result reach ahead.now None false ≡ given reach (f ∷ ahead.now) asked lost }
    ensures going { (reach : ℕ) (f : Fetched) → f.ended ≡ ended → over_at (given reach (f ∷ ahead.now) asked lost)
        ≡ None }
    ensures kept { IsKept result ahead.now }
{
    if lost {
        ConsumerStage::Leaving(Why::Lost)
    } else if ended {
        ConsumerStage::Ending
    } else {
        match asked {
            Some(to) => ConsumerStage::Marking(to),
            None => ahead.front_stage(),
        }
    }
}

/// Returns the consumer's stage after the answer to a Give. If the Give was accepted, the first batch is removed from
/// the ring.
fn after_give(
    ahead: &mut Ahead,
    asked: Option<Target>,
    lost: bool,
    answer: &Answer,
) -> ConsumerStage
    ensures stage { (reach : ℕ)
        → stage_of result reach ahead.new None false ≡ after_give reach ahead.old asked lost answer.now }
    ensures going { (reach : ℕ) → over_at (after_give reach ahead.old asked lost answer.now) ≡ None }
    ensures kept { IsKept result ahead.new }
{
    match answer {
        Ok(_) => match ahead.pop_first() {
            Some(ended) => stage_after_give(ahead, ended, asked, lost),
            None => ConsumerStage::Leaving(Why::Lost),
        },
        Err(_) => ConsumerStage::Leaving(Why::Lost),
    }
}

/// Returns the sequence number of the last record reported as processed, after the answer to the Give of the first
/// batch. `given` is that number before the Give. If the Give was refused, or the batch is empty, the number is
/// unchanged.
fn last_after(ahead: &Ahead, given: Option<Seq>, answer: &Answer) -> Option<Seq>
    ensures { (reach : ℕ) (asked : Option Target) (lost : Bool)
        → result ≡ given_after answer.now (Giving reach ahead.now asked lost) given }
{
    match answer {
        Ok(_) => match last_in(ahead.first_batch()) {
            Some(seq) => Some(seq),
            None => given,
        },
        Err(_) => given,
    }
}

/// Returns the consumer's stage and progress after the answer to the Mark with which the consumer sets the checkpoint
/// that its processor asked for.
fn after_mark(ahead: &Ahead, answer: &Answer) -> (ConsumerStage, Progress)
    ensures stage { (reach : ℕ) → stage_of result.0 reach ahead.now None false ≡ after_mark reach ahead.now answer.now }
    ensures kept { IsKept result.0 ahead.now }
    ensures told { result.1 ≡ progress_refused answer.now }
{
    match answer {
        Ok(_) => (ahead.front_stage(), Progress::Going),
        Err(Refusal::Lost(_)) => (ConsumerStage::Leaving(Why::Lost), Progress::Going),
        Err(Refusal::Moved(_)) => (ConsumerStage::Leaving(Why::Lost), Progress::Going),
        Err(r) => (ahead.front_stage(), Progress::Refused(*r)),
    }
}

/// Returns the consumer's stage and progress after the answer to its OpenShard.
fn after_open(answer: Answer) -> (ConsumerStage, Progress)
    ensures stage { (reach : ℕ) (waiting : List Fetched) (asked : Option Target) (lost : Bool)
        → stage_of result.0 reach waiting asked lost ≡ after_open answer }
    ensures kept { (waiting : List Fetched) → waiting ≡ [] → IsKept result.0 waiting }
    ensures told { result.1 ≡ progress_over (over_at (after_open answer)) }
{
    let after = match &answer {
        Ok(_) => (ConsumerStage::Starting, Progress::Going),
        Err(Refusal::ParentsOpen(_)) => (ConsumerStage::Opening, Progress::Going),
        Err(_) => (
            ConsumerStage::Over(Why::NeverOpened),
            Progress::Over(Why::NeverOpened),
        ),
    };
    let_go(answer);
    after
}

/// Returns the consumer's stage and progress after the answer to the Mark with which the consumer sets the checkpoint
/// to the shard's end.
fn after_end(answer: Answer) -> (ConsumerStage, Progress)
    ensures stage { (reach : ℕ) (waiting : List Fetched) (asked : Option Target) (lost : Bool)
        → stage_of result.0 reach waiting asked lost ≡ after_end answer }
    ensures kept { (waiting : List Fetched) → IsKept result.0 waiting }
    ensures told { result.1 ≡ progress_over (over_at (after_end answer)) }
{
    let after = match &answer {
        Ok(_) => (ConsumerStage::Over(Why::Ended), Progress::Over(Why::Ended)),
        Err(_) => (ConsumerStage::Leaving(Why::Lost), Progress::Going),
    };
    let_go(answer);
    after
}

/// Returns the progress of a consumer that gets an answer although it awaits none in its stage. The answer is dropped.
fn progress_over(stage: ConsumerStage, answer: Answer) -> Progress
    ensures { (reach : ℕ) (waiting : List Fetched) (asked : Option Target) (lost : Bool)
        → result ≡ progress_over (over_at (stage_of stage reach waiting asked lost)) }
{
    let_go(answer);
    match stage {
        ConsumerStage::Over(why) => Progress::Over(why),
        _ => Progress::Going,
    }
}

/// Clears `asked`, the checkpoint that the processor asked for, and `lost`, which says that the lease is known to be
/// lost. The consumer's next stage needs neither value.
fn forget(asked: &mut Option<Target>, lost: &mut bool)
    ensures asked { asked.new ≡ None }
    ensures lost { lost.new ≡ false }
{
    *asked = None;
    *lost = false;
}

/// Returns the consumer's stage and read position after the answer to a Read. `reach` is the read position before the
/// Read. If the answer has a batch, the batch is added to the ring.
fn after_read(ahead: &mut Ahead, limit: u32, reach: u64, answer: Answer) -> (ConsumerStage, u64)
    requires { length ahead.old < PENDING_READS }
    ensures stage { stage_of result.0 result.1 ahead.new None false ≡ after_read limit reach ahead.old answer }
    ensures going { over_at (after_read limit reach ahead.old answer) ≡ None }
    ensures kept { IsKept result.0 ahead.new }
{
    match fetching_after(answer) {
        Fetching::Read(f, next) => {
            let filled = ahead.stops_filling(&f, limit);
            ahead.add(f);
            if filled {
                (ahead.front_stage(), next)
            } else {
                (ConsumerStage::Filling, next)
            }
        }
        Fetching::Nothing => (ConsumerStage::Filling, reach),
        Fetching::Left(why) => (ConsumerStage::Leaving(why), reach),
    }
}

/// The consumer of one lease during one tenure, that is, during one worker's hold on the lease (Kinesis Client Library,
/// ShardConsumer and its ConsumerStates). The consumer opens its shard, reads ahead, and hands each batch with records
/// to its processor. When the processor has returned, the consumer reports the batch as processed (Give), and sets the
/// checkpoint that the processor asked for, if any (Mark).
#[derive(Drop)]
pub struct Consumer<P> {
    made: Tenancy,
    stage: ConsumerStage,
    reach: u64,
    ahead: Ahead,
    asked: Option<Target>,
    lost_in_giving: bool,
    given: Option<Seq>,
    processor: P,
}

impl<P> Model for Consumer<P> {
    ghost use Rattle.kcl_consumer.specs.Standing.{ConsumerValue};

    ghost Value = { ConsumerValue P };

    ghost use Rattle.kcl_consumer.specs.Stages.{stage_of, IsKept};
    ghost use Rattle.kds_defs.specs.Lawful.{IsLimit};

    ghost view = { λ c. record {
      made = c.made;
      stage = stage_of c.stage c.reach c.ahead c.asked c.lost_in_giving;
      given = c.given;
      processor = c.processor;
    } };

    ghost invariant = { λ c. IsKept c.stage c.ahead × IsLimit c.made.limit };
}

impl<P: Processor> Consumer<P> {
    /// Returns a consumer whose first command opens its shard. `start` is the lease's checkpoint when the consumer's
    /// tenure begins. Each Read asks for at most `limit` records, 1 to 10,000. Precondition: the ring `ahead` is empty.
    pub fn new(
        key: ShardRef,
        tenure: TenureNo,
        start: Checkpoint,
        limit: u32,
        processor: P,
        ahead: Ahead,
    ) -> Consumer<P>
        requires limit { IsLimit limit }
        requires empty { ahead ≡ [] }
        ensures made { result.made ≡ record { key = key; tenure = tenure; start = start; limit = limit } }
        ensures opening { result.stage ≡ Opening }
        ensures given { result.given ≡ None }
        ensures processor { result.processor ≡ processor }
        ensures stands { P.stands_for processor [] → StandsFor P.stands_for result [] }
    {
        Consumer {
            made: Tenancy {
                key,
                tenure,
                start,
                limit,
            },
            stage: ConsumerStage::Opening,
            reach: 0,
            ahead,
            asked: None,
            lost_in_giving: false,
            given: None,
            processor,
        }
    }

    /// Returns the key of the consumer's lease.
    pub fn key(&self) -> ShardRef
        ensures { result ≡ self.now.made.key }
    {
        self.made.key
    }

    /// Returns the number of the consumer's tenure.
    pub fn tenure(&self) -> TenureNo
        ensures { result ≡ self.now.made.tenure }
    {
        self.made.tenure
    }

    /// Returns the processor call that must be made before the consumer's next command, or `None` if no call is due.
    pub fn due(&self) -> Option<Due>
        ensures { result ≡ due_call self.now.stage }
    {
        match self.stage {
            ConsumerStage::Starting => Some(Due::Initialize),
            ConsumerStage::Holding => Some(Due::Process),
            ConsumerStage::Ending => Some(Due::ShardEnded),
            ConsumerStage::Leaving(_) => Some(Due::LeaseLost),
            _ => None,
        }
    }

    /// Returns why the consumer is over, or `None` if it isn't over.
    pub fn over(&self) -> Option<Why>
        ensures { result ≡ over_at self.now.stage }
    {
        match self.stage {
            ConsumerStage::Over(why) => Some(why),
            _ => None,
        }
    }

    /// Returns the sequence number of the last record that the consumer reported as processed, or `None` if it reported
    /// no record.
    pub fn last_given(&self) -> Option<Seq>
        ensures { result ≡ self.now.given }
    {
        self.given
    }

    /// Whether the consumer's next command is a Give, which reports a batch as processed.
    pub fn is_giving(&self) -> bool
        ensures { result ≡ is_giving_stage self.now.stage }
    {
        match self.stage {
            ConsumerStage::Giving => true,
            _ => false,
        }
    }

    /// Whether the consumer's next command is an OpenShard, which opens its shard, or a Mark, which sets the
    /// checkpoint.
    pub fn opens_or_marks(&self) -> bool
        ensures { result ≡ opens_or_marks self.now.stage }
    {
        match self.stage {
            ConsumerStage::Opening => true,
            ConsumerStage::Marking(_) => true,
            ConsumerStage::MarkingEnd => true,
            _ => false,
        }
    }

    /// Returns the consumer's next command. `counter` is the present counter of the lease's row in the lease table.
    /// Precondition: no processor call is due, and the consumer isn't over. Needs no memory.
    pub fn next(&self, counter: u64) -> Command
        requires none_due { due_call self.now.stage ≡ None }
        requires not_over { over_at self.now.stage ≡ None }
        ensures next { next_command self.now.made self.now.stage counter ≡ Some result }
        ensures lawful { IsLawfulCommand result }
        ensures own { is_service result ≡ false }
    {
        let tenure = self.made.tenure;
        match self.stage {
            ConsumerStage::Filling => Command::Read {
                tenure,
                position: self.reach,
                limit: self.made.limit,
            },
            ConsumerStage::Giving => Command::Give { tenure },
            ConsumerStage::Marking(to) => Command::Mark {
                tenure,
                counter,
                to,
            },
            ConsumerStage::MarkingEnd => Command::Mark {
                tenure,
                counter,
                to: Target::End,
            },
            _ => Command::OpenShard { tenure },
        }
    }

    /// Makes the processor call that is due. Precondition: a call is due. The error means that the processor ran out of
    /// memory; the same call is then still due.
    #[tactic(auto, using(crate::proofs::StandLemmas::called, crate::proofs::StandLemmas::kept))]
    pub fn call(&mut self) -> Result<(), Memory>
        requires { IsSome (due_call self.old.stage) }
        ensures ok { OnOk result ((asked : Ask) × HasCalled P.stands_for P.asks asked self.old self.new) }
        ensures err { OnErr result (IsAsBefore P.stands_for P.asks self.old self.new) }
        ensures stands { OnOk result ((asked : Ask) (past : Past)
            → HasCalled P.stands_for P.asks asked self.old self.new
            → StandsFor P.stands_for self.old past → StandsFor P.stands_for self.new (Called asked ∷ past)) }
        ensures still { OnErr result ((past : Past) → StandsFor P.stands_for self.old past
            → StandsFor P.stands_for self.new past) }
    {
        match self.stage {
            ConsumerStage::Starting => {
                self.processor.initialize(self.made.key, self.made.start)?;
                self.reach = first_position(self.made.start);
                self.stage = ConsumerStage::Filling;
            }
            ConsumerStage::Holding => {
                let batch = self.ahead.first_batch();
                let asked = self.processor.process_records(batch)?;
                self.asked = target_after(asked, batch);
                self.lost_in_giving = false;
                self.stage = ConsumerStage::Giving;
            }
            ConsumerStage::Ending => {
                self.processor.shard_ended()?;
                self.stage = ConsumerStage::MarkingEnd;
            }
            ConsumerStage::Leaving(why) => {
                self.processor.lease_lost()?;
                self.stage = ConsumerStage::Over(why);
            }
            _ => {}
        }
        Ok(())
    }

    /// Updates the consumer with the answer to the command that `next` returned, and returns its progress. Needs no
    /// memory.
    #[tactic(auto, using(crate::proofs::StandLemmas::answered))]
    pub fn absorb(&mut self, answer: Answer) -> Progress
        ensures made { self.new.made ≡ self.old.made }
        ensures stage { self.new.stage ≡ after_answer self.old.made answer self.old.stage }
        ensures given { self.new.given ≡ given_after answer self.old.stage self.old.given }
        ensures processor { self.new.processor ≡ self.old.processor }
        ensures progress { result ≡ progress_of self.old.made answer self.old.stage }
        ensures stands { (past : Past) → StandsFor P.stands_for self.old past
            → StandsFor P.stands_for self.new (Answered answer ∷ past) }
    {
        match self.stage {
            ConsumerStage::Opening => {
                let (stage, progress) = after_open(answer);
                self.stage = stage;
                progress
            }
            ConsumerStage::Filling => {
                let limit = self.made.limit;
                let (stage, reach) = after_read(&mut self.ahead, limit, self.reach, answer);
                self.stage = stage;
                forget(&mut self.asked, &mut self.lost_in_giving);
                self.reach = reach;
                Progress::Going
            }
            ConsumerStage::Giving => {
                self.given = last_after(&self.ahead, self.given, &answer);
                self.stage = after_give(&mut self.ahead, self.asked, self.lost_in_giving, &answer);
                forget(&mut self.asked, &mut self.lost_in_giving);
                let_go(answer);
                Progress::Going
            }
            ConsumerStage::Marking(_) => {
                let (stage, progress) = after_mark(&self.ahead, &answer);
                self.stage = stage;
                forget(&mut self.asked, &mut self.lost_in_giving);
                let_go(answer);
                progress
            }
            ConsumerStage::MarkingEnd => {
                let (stage, progress) = after_end(answer);
                self.stage = stage;
                progress
            }
            stage => progress_over(stage, answer),
        }
    }

    /// Tells the consumer that its lease is lost. If the processor was already handed a batch that isn't yet reported
    /// as processed, the consumer still reports it (Give).
    pub fn lose(&mut self)
        ensures made { self.new.made ≡ self.old.made }
        ensures stage { self.new.stage ≡ after_loss self.old.stage }
        ensures given { self.new.given ≡ self.old.given }
        ensures processor { self.new.processor ≡ self.old.processor }
        ensures stands { (past : Past) → StandsFor P.stands_for self.old past
            → StandsFor P.stands_for self.new (Losing ∷ past) }
    {
        match self.stage {
            ConsumerStage::Opening => self.stage = ConsumerStage::Over(Why::NeverOpened),
            ConsumerStage::Starting => self.stage = ConsumerStage::Over(Why::NeverOpened),
            ConsumerStage::Giving => {
                if self.ahead.first_has_records() {
                    self.lost_in_giving = true;
                } else {
                    self.stage = ConsumerStage::Leaving(Why::Lost);
                }
            }
            ConsumerStage::Over(_) => {}
            _ => self.stage = ConsumerStage::Leaving(Why::Lost),
        }
    }

    /// Returns the processor, and drops the rest of the consumer.
    pub fn into_processor(self) -> P
        ensures { result ≡ self.processor }
    {
        self.processor
    }
}

/// States with which batches a processor is called, whatever answers its consumer gets. The processor is called, in the
/// order of the Reads, with each non-empty batch that the consumer has reported as processed (Give). It may also be
/// called with one further batch, which isn't reported yet. Suppose that a history (a list of commands) is given, and
/// that the consumer has been updated with exactly the answers to the commands on its tenure in this history. Then the
/// reported batches are the reads that the history reports as processed in this tenure.
pub fn life()
    ensures own { (made : Tenancy) (past : Past)
        → IsLife made (reads_after made past) (gives_after made past) (calls_after made past) }
    ensures among { (deals : List Deal) (made : Tenancy) (past : Past) → IsInStep deals made past
        → IsLifeAmong deals made (calls_after made past) }
    ensures step { (deal : Deal) (deals : List Deal) (counter : ℕ) (made : Tenancy) (past : Past)
        → next_command made (stage_after made past) counter ≡ Some deal.what
        → IsInStep deals made past → IsInStep (deal ∷ deals) made (Answered deal.answer ∷ past) }
{}
