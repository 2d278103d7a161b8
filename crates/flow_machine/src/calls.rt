//! The steps of statements that ask for something: activities, instances, entities, timers and events.

ghost use Rattle.std.specs.Prelude.{◌≡◌, ◌∷◌, [], OnOk, IfOk, length};
ghost use Rattle.dura_value.specs.Views.{id_of, reply_of, spot_of, body_of};
ghost use Rattle.dura_value.specs.Messages.{at_spot, operate};
ghost use Rattle.flow_syntax.specs.Eval.{eval};
ghost use Rattle.flow_syntax.specs.Views.{expression_of};
ghost use Rattle.flow_syntax.specs.Machine.{an_activity, of_activity, having, by_rule, scheduled, calls, starts, asks, signals, with_task, with_handle, may_start, may_ask, may_signal, says, spot_of as spot_at};
ghost use Rattle.flow_eval.specs.Gives.{EvalGives};
ghost use Rattle.flow_messages.specs.Views.{asked_of};
ghost use Rattle.flow_tasks.specs.Views.{kind_of};
ghost use Rattle.flow_machine.specs.Values.{pair_in};
ghost use Rattle.flow_machine.specs.Views.{machine_of};
ghost use Rattle.flow_machine.specs.Steps.{Makes, Goes};

use crate::machine::{Machine, Todo};
use dura_value::{Body, Id, Key, Message, Name, Reply, Spot, Value, with};
use flow_eval::{EvalError, to_key};
use flow_messages::{Asked, Made, copy_id, copy_name, copy_value, entity_id};
use flow_syntax::Expr;
use flow_tasks::Kind;
use std::alloc::{AllocError, Global};

/// An activity that is asked for.
fn ask_for(number: u32, activity: &Name, argument: &Value) -> Result<Asked, AllocError>
    ensures { IfOk result (λ asked. asked_of asked ≡ an_activity number activity.now argument.now) }
{
    let name = copy_name(activity)?;
    Ok(Asked::Activity(number, name, copy_value(argument)?))
}

/// The task that waits for an activity.
fn kind_for(activity: &Name, argument: &Value) -> Result<Kind, AllocError>
    ensures { IfOk result (λ kind. kind_of kind ≡ of_activity activity.now argument.now) }
{
    let name = copy_name(activity)?;
    Ok(Kind::Activity(name, copy_value(argument)?))
}

impl<'f> Machine<'f> {
    /// The number of the next task. More than have a number have no room.
    #[tactic(auto, using(crate::proofs::Counts::tasks_counted))]
    pub(crate) fn next_task(&self) -> Result<u32, AllocError>
        ensures { IfOk result (λ number. number ≡ length (machine_of self.now).tasks) }
    {
        match u32::try_from(self.tasks.len()) {
            Ok(number) => Ok(number),
            Err(_) => Err(AllocError),
        }
    }

    /// A variable is the handle of the next task.
    pub(crate) fn handle(&mut self, variable: &Name) -> Result<u32, AllocError>
        ensures number { IfOk result (λ number. number ≡ length (machine_of self.old).tasks) }
        ensures handle { OnOk result (machine_of self.new
            ≡ with_handle (machine_of self.old) variable.now) }
    {
        let number = self.next_task()?;
        self.variables
            .set(copy_name(variable)?, Value::Int(number as i64))?;
        Ok(number)
    }

    /// A new task.
    pub(crate) fn add_task(&mut self, kind: Kind) -> Result<(), AllocError>
        ensures { OnOk result (machine_of self.new
            ≡ with_task (machine_of self.old) (kind_of kind)) }
    {
        self.tasks.push(kind)
    }

    fn schedule(
        &mut self,
        made: &mut Made,
        activity: &Name,
        argument: &Value,
    ) -> Result<(), AllocError>
        ensures { OnOk result (Makes made.old made.new self.new
            (scheduled (machine_of self.old) activity.now argument.now)) }
    {
        let number = self.next_task()?;
        let asked = ask_for(number, activity, argument)?;
        made.asked.push(asked)?;
        let kind = kind_for(activity, argument)?;
        self.add_task(kind)
    }

    pub(crate) fn step_spawn(
        &mut self,
        alloc: Global,
        made: &mut Made,
        variable: &Name,
        activity: &Name,
        argument: &Expr,
    ) -> Result<(), AllocError>
        ensures { OnOk result (Goes made.old made.new self.new
            (having (machine_of self.old)
            (eval (machine_of self.old).variables (expression_of argument.now))
            (scheduled (with_handle (machine_of self.old) variable.now) activity.now))) }
    {
        let number = self.next_task()?;
        match self.value(alloc, argument) {
            Ok(value) => {
                let scheduled = self.schedule(made, activity, &value);
                drop(value);
                scheduled?;
                self.set(variable, Value::Int(number as i64))
            }
            Err(error) => self.throw_error(alloc, made, error),
        }
    }

    pub(crate) fn step_call(
        &mut self,
        alloc: Global,
        made: &mut Made,
        variable: &'f Name,
        activity: &Name,
        argument: &Expr,
    ) -> Result<(), AllocError>
        ensures { OnOk result (Goes made.old made.new self.new
            (having (machine_of self.old)
            (eval (machine_of self.old).variables (expression_of argument.now))
            (calls (machine_of self.old) variable.now activity.now))) }
    {
        let number = self.next_task()?;
        match self.value(alloc, argument) {
            Ok(value) => {
                let scheduled = self.schedule(made, activity, &value);
                drop(value);
                scheduled?;
                self.plan(Todo::Await(variable, number))
            }
            Err(error) => self.throw_error(alloc, made, error),
        }
    }

    /// A key, and then an argument.
    fn pair(&self, alloc: Global, key: &Expr, argument: &Expr) -> Result<(Key, Value), EvalError>
        ensures { EvalGives (λ p. (p.0, p.1)) result
            (pair_in (machine_of self.now).variables (expression_of key.now)
            (expression_of argument.now)) }
    {
        let value = self.value(alloc, key)?;
        let key = to_key(alloc, &value);
        drop(value);
        let (argument, key) = with(self.value(alloc, argument), key?)?;
        Ok((key, argument))
    }

    /// Sends a message of its own.
    pub(crate) fn send(&self, made: &mut Made, to: Id, body: Body) -> Result<(), AllocError>
        ensures { OnOk result (Makes made.old made.new self.now
            (record {
              machine = machine_of self.now;
              sent = says (machine_of self.now) (id_of to)
                  (body_of body) ∷ [];
              asked = [];
            })) }
    {
        let (from, (to, body)) = with(copy_id(&self.id), (to, body))?;
        made.messages.push(Message { from, to, body })?;
        Ok(())
    }

    fn start(
        &mut self,
        made: &mut Made,
        variable: &Name,
        flow: &Name,
        pair: (Key, Value),
    ) -> Result<(), AllocError>
        ensures { OnOk result (Makes made.old made.new self.new
            (starts (machine_of self.old) variable.now flow.now pair.0 pair.1)) }
    {
        let (number, pair) = with(self.handle(variable), pair)?;
        let (flow, (key, argument)) = with(copy_name(flow), pair)?;
        let body = Body::Start(argument, Reply::Task(number));
        self.send(made, Id::Flow(flow, key), body)?;
        self.add_task(Kind::Flow)
    }

    pub(crate) fn step_sub(
        &mut self,
        alloc: Global,
        made: &mut Made,
        variable: &Name,
        flow: &Name,
        key: &Expr,
        argument: &Expr,
    ) -> Result<(), AllocError>
        ensures { OnOk result (Goes made.old made.new self.new
            (having (machine_of self.old)
            (pair_in (machine_of self.old).variables (expression_of key.now)
            (expression_of argument.now))
            (λ p. by_rule (machine_of self.old) (may_start (machine_of self.old).section)
            (starts (machine_of self.old) variable.now flow.now p.0 p.1)))) }
    {
        match self.pair(alloc, key, argument) {
            Ok(pair) => {
                if self.section.may_start() {
                    self.start(made, variable, flow, pair)
                } else {
                    drop(pair);
                    self.throw_word(alloc, made, "lockrule")
                }
            }
            Err(error) => self.throw_error(alloc, made, error),
        }
    }

    /// Sends an operation to an entity.
    fn operate(
        &self,
        made: &mut Made,
        spot: &Spot,
        operation: &Name,
        argument: Value,
        reply: Reply,
    ) -> Result<(), AllocError>
        ensures { OnOk result (Makes made.old made.new self.now
            (record {
              machine = machine_of self.now;
              sent = says (machine_of self.now)
                  (at_spot (spot_of spot.now)) (operate operation.now argument (reply_of reply))
                  ∷ [];
              asked = [];
            })) }
    {
        let (operation, argument) = with(copy_name(operation), argument)?;
        let body = Body::Op(operation, argument, reply);
        let (to, body) = with(entity_id(spot), body)?;
        self.send(made, to, body)
    }

    fn ask(
        &mut self,
        made: &mut Made,
        variable: &Name,
        spot: Spot,
        operation: &Name,
        argument: Value,
    ) -> Result<(), AllocError>
        ensures { OnOk result (Makes made.old made.new self.new
            (asks (machine_of self.old) variable.now (spot_of spot) operation.now argument)) }
    {
        let (number, (spot, argument)) = with(self.handle(variable), (spot, argument))?;
        let sent = self.operate(made, &spot, operation, argument, Reply::Task(number));
        let (_, spot) = with(sent, spot)?;
        self.add_task(Kind::Entity(spot))
    }

    pub(crate) fn step_ask(
        &mut self,
        alloc: Global,
        made: &mut Made,
        variable: &Name,
        class: &Name,
        key: &Expr,
        operation: &Name,
        argument: &Expr,
    ) -> Result<(), AllocError>
        ensures { OnOk result (Goes made.old made.new self.new
            (having (machine_of self.old)
            (pair_in (machine_of self.old).variables (expression_of key.now)
            (expression_of argument.now))
            (λ p. by_rule (machine_of self.old)
            (may_ask (machine_of self.old).section (spot_at class.now p.0)
            (machine_of self.old).tasks)
            (asks (machine_of self.old) variable.now (spot_at class.now p.0) operation.now p.1)))) }
    {
        match self.pair(alloc, key, argument) {
            Ok(pair) => {
                let (class, (key, argument)) = with(copy_name(class), pair)?;
                let spot = Spot { class, key };
                if self.section.may_ask(&spot, &self.tasks) {
                    self.ask(made, variable, spot, operation, argument)
                } else {
                    drop(spot);
                    drop(argument);
                    self.throw_word(alloc, made, "lockrule")
                }
            }
            Err(error) => self.throw_error(alloc, made, error),
        }
    }

    pub(crate) fn step_signal(
        &mut self,
        alloc: Global,
        made: &mut Made,
        class: &Name,
        key: &Expr,
        operation: &Name,
        argument: &Expr,
    ) -> Result<(), AllocError>
        ensures { OnOk result (Goes made.old made.new self.new
            (having (machine_of self.old)
            (pair_in (machine_of self.old).variables (expression_of key.now)
            (expression_of argument.now))
            (λ p. by_rule (machine_of self.old)
            (may_signal (machine_of self.old).section (spot_at class.now p.0))
            (signals (machine_of self.old) (spot_at class.now p.0) operation.now p.1)))) }
    {
        match self.pair(alloc, key, argument) {
            Ok(pair) => {
                let (class, (key, argument)) = with(copy_name(class), pair)?;
                let spot = Spot { class, key };
                if self.section.may_signal(&spot) {
                    let signalled = self.operate(made, &spot, operation, argument, Reply::None);
                    drop(spot);
                    signalled
                } else {
                    drop(spot);
                    drop(argument);
                    self.throw_word(alloc, made, "lockrule")
                }
            }
            Err(error) => self.throw_error(alloc, made, error),
        }
    }
}
