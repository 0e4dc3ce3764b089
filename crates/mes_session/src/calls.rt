//! Methods that make calls. Each first checks S1 to S7 of [`Refusal`] and then copies its
//! arguments, so that S8 (out of memory) never hides another reason. A returned call is already
//! applied to the session.
ghost use Rattle.std.specs.Prelude.{◌≡◌, Some, Ok, Err, IfOk, IfErr, OnErr, IsSome, option_copied};
ghost use Rattle.mes_model.specs.Id.{Id as IdValue};
ghost use Rattle.mes_msg.specs.declared.entry.Entry.TheVariants.{Said};
ghost use Rattle.mes_session_state.specs.Calls.{accept_call, decline_call, acknowledge_call};
ghost use Rattle.mes_session.specs.History.{after};
ghost use Rattle.mes_session_calls.specs.Made.{subscribe_call, kill_call, reconcile_call, shutdown_call, message_call};
ghost use Rattle.mes_session.specs.Making.{Applied, Made, NotMade};

use crate::session::Session;
use mes_json::NoMemory;
use mes_model::{Filters, FrameworkInfo, Id, OwedKey, TaskInfo, TaskRef};
use mes_msg::Call;
use mes_session_calls::{
    make_accept, make_acknowledge, make_decline, make_kill, make_message, make_reconcile,
    make_revive, make_shutdown, make_subscribe, make_suppress, make_teardown,
};
use mes_session_state::Refusal;

impl Session {
    /// Makes the SUBSCRIBE of a framework. The call and its `FrameworkInfo` name the known
    /// framework; if none is known, the id in `info`. The only error is out of memory (S8).
    pub fn subscribe(&mut self, info: &FrameworkInfo) -> Result<Call, Refusal>
        ensures call { IfOk result (λ call. call ≡ subscribe_call self.old.framework info.now) }
        ensures ok { IfOk result (λ call. Applied self.old call self.new) }
        ensures err { IfErr result (λ refusal. refusal ≡ Refusal.NoMemory) }
        ensures same { OnErr result (self.new ≡ self.old) }
    {
        let call = make_subscribe(self.alloc, self.framework.as_ref(), info);
        self.say(call)
    }

    /// Makes an ACCEPT with one LAUNCH of `tasks`, or with no operation if `tasks` is empty.
    /// Errors: S1 to S6 of [`Refusal`], else out of memory (S8).
    pub fn accept(
        &mut self,
        ids: &[Id],
        tasks: &[TaskInfo],
        filters: Option<&Filters>,
    ) -> Result<Call, Refusal>
        // On success the result is the ACCEPT of these arguments, which is applied to the session.
        ensures ok { IfOk result (λ call. Made
            (λ framework. accept_call framework ids.now tasks.now (option_copied filters.entry))
            self.old self.new call) }
        // Each error is the first reason against the call, or out of memory if there is none; the
        // session is unchanged.
        ensures err { IfErr result (λ refusal. NotMade
            (λ framework. accept_call framework ids.now tasks.now (option_copied filters.entry))
            self.old self.new refusal) }
    {
        if let Some(refusal) = self.standing().refusal_of_accept(ids, tasks) {
            return Err(refusal);
        }
        let call = make_accept(self.alloc, self.own(), ids, tasks, filters);
        self.say(call)
    }

    /// Makes a DECLINE; the offers may be of several agents. Errors: S1 to S3 of [`Refusal`], else
    /// out of memory (S8).
    pub fn decline(&mut self, ids: &[Id], filters: Option<&Filters>) -> Result<Call, Refusal>
        // On success the result is the DECLINE of these arguments, which is applied to the session.
        ensures ok { IfOk result (λ call. Made
            (λ framework. decline_call framework ids.now (option_copied filters.entry)) self.old
            self.new call) }
        // Each error is the first reason against the call, or out of memory if there is none; the
        // session is unchanged.
        ensures err { IfErr result (λ refusal. NotMade
            (λ framework. decline_call framework ids.now (option_copied filters.entry)) self.old
            self.new refusal) }
    {
        if let Some(refusal) = self.standing().refusal_of_decline(ids) {
            return Err(refusal);
        }
        let call = make_decline(self.alloc, self.own(), ids, filters);
        self.say(call)
    }

    /// Makes a REVIVE. Errors: not subscribed (S1), else out of memory (S8).
    pub fn revive(&mut self) -> Result<Call, Refusal>
        // On success the result is the REVIVE of the framework, which is applied to the session.
        ensures ok { IfOk result (λ call. Made (λ framework. Call.Revive framework) self.old
            self.new call) }
        // Each error is the first reason against the call, or out of memory if there is none; the
        // session is unchanged.
        ensures err { IfErr result (λ refusal. NotMade (λ framework. Call.Revive framework) self.old
            self.new refusal) }
    {
        if let Some(refusal) = self.standing().refusal_of_plain() {
            return Err(refusal);
        }
        let call = make_revive(self.alloc, self.own());
        self.say(call)
    }

    /// Makes a KILL of a task, with its agent if given. Errors: not subscribed (S1), else out of
    /// memory (S8).
    pub fn kill(&mut self, task: &Id, agent: Option<&Id>) -> Result<Call, Refusal>
        // On success the result is the KILL of these arguments, which is applied to the session.
        ensures ok { IfOk result (λ call. Made
            (λ framework. kill_call framework task.now (option_copied agent.entry)) self.old
            self.new call) }
        // Each error is the first reason against the call, or out of memory if there is none; the
        // session is unchanged.
        ensures err { IfErr result (λ refusal. NotMade
            (λ framework. kill_call framework task.now (option_copied agent.entry)) self.old
            self.new refusal) }
    {
        if let Some(refusal) = self.standing().refusal_of_plain() {
            return Err(refusal);
        }
        let call = make_kill(self.alloc, self.own(), task, agent);
        self.say(call)
    }

    /// Makes the ACKNOWLEDGE of an unacknowledged update. Errors: not subscribed (S1), no such
    /// update (S7), else out of memory (S8).
    pub fn acknowledge(&mut self, key: &OwedKey) -> Result<Call, Refusal>
        // On success the result is the ACKNOWLEDGE of the key, which is applied to the session.
        ensures ok { IfOk result (λ call. Made (λ framework. acknowledge_call framework key.now)
            self.old self.new call) }
        // Each error is the first reason against the call, or out of memory if there is none; the
        // session is unchanged.
        ensures err { IfErr result (λ refusal. NotMade
            (λ framework. acknowledge_call framework key.now) self.old self.new refusal) }
    {
        if let Some(refusal) = self.standing().refusal_of_acknowledge(key) {
            return Err(refusal);
        }
        let call = make_acknowledge(self.alloc, self.own(), key);
        self.say(call)
    }

    /// Makes a RECONCILE of `tasks`, or of all tasks if `tasks` is empty. Repeated tasks are
    /// allowed. Errors: not subscribed (S1), else out of memory (S8).
    pub fn reconcile(&mut self, tasks: &[TaskRef]) -> Result<Call, Refusal>
        // On success the result is the RECONCILE of these tasks, which is applied to the session.
        ensures ok { IfOk result (λ call. Made (λ framework. reconcile_call framework tasks.now)
            self.old self.new call) }
        // Each error is the first reason against the call, or out of memory if there is none; the
        // session is unchanged.
        ensures err { IfErr result (λ refusal. NotMade
            (λ framework. reconcile_call framework tasks.now) self.old self.new refusal) }
    {
        if let Some(refusal) = self.standing().refusal_of_plain() {
            return Err(refusal);
        }
        let call = make_reconcile(self.alloc, self.own(), tasks);
        self.say(call)
    }

    /// Makes a TEARDOWN. Errors: not subscribed (S1), else out of memory (S8).
    pub fn teardown(&mut self) -> Result<Call, Refusal>
        // On success the result is the TEARDOWN of the framework, which is applied to the session.
        ensures ok { IfOk result (λ call. Made (λ framework. Call.Teardown framework) self.old
            self.new call) }
        // Each error is the first reason against the call, or out of memory if there is none; the
        // session is unchanged.
        ensures err { IfErr result (λ refusal. NotMade (λ framework. Call.Teardown framework)
            self.old self.new refusal) }
    {
        if let Some(refusal) = self.standing().refusal_of_plain() {
            return Err(refusal);
        }
        let call = make_teardown(self.alloc, self.own());
        self.say(call)
    }

    /// Makes a SUPPRESS. Errors: not subscribed (S1), else out of memory (S8).
    pub fn suppress(&mut self) -> Result<Call, Refusal>
        // On success the result is the SUPPRESS of the framework, which is applied to the session.
        ensures ok { IfOk result (λ call. Made (λ framework. Call.Suppress framework) self.old
            self.new call) }
        // Each error is the first reason against the call, or out of memory if there is none; the
        // session is unchanged.
        ensures err { IfErr result (λ refusal. NotMade (λ framework. Call.Suppress framework)
            self.old self.new refusal) }
    {
        if let Some(refusal) = self.standing().refusal_of_plain() {
            return Err(refusal);
        }
        let call = make_suppress(self.alloc, self.own());
        self.say(call)
    }

    /// Makes a SHUTDOWN of an executor. Errors: not subscribed (S1), else out of memory (S8).
    pub fn shutdown(&mut self, executor: &Id, agent: &Id) -> Result<Call, Refusal>
        // On success the result is the SHUTDOWN of these arguments, which is applied to the
        // session.
        ensures ok { IfOk result (λ call. Made
            (λ framework. shutdown_call framework executor.now agent.now) self.old self.new call) }
        // Each error is the first reason against the call, or out of memory if there is none; the
        // session is unchanged.
        ensures err { IfErr result (λ refusal. NotMade
            (λ framework. shutdown_call framework executor.now agent.now) self.old self.new
            refusal) }
    {
        if let Some(refusal) = self.standing().refusal_of_plain() {
            return Err(refusal);
        }
        let call = make_shutdown(self.alloc, self.own(), executor, agent);
        self.say(call)
    }

    /// Makes a MESSAGE of bytes to an executor. Errors: not subscribed (S1), else out of memory
    /// (S8).
    pub fn message(&mut self, agent: &Id, executor: &Id, data: &[u8]) -> Result<Call, Refusal>
        // On success the result is the MESSAGE of these arguments, which is applied to the session.
        ensures ok { IfOk result (λ call. Made
            (λ framework. message_call framework agent.now executor.now «data».now) self.old
            self.new call) }
        // Each error is the first reason against the call, or out of memory if there is none; the
        // session is unchanged.
        ensures err { IfErr result (λ refusal. NotMade
            (λ framework. message_call framework agent.now executor.now «data».now) self.old
            self.new refusal) }
    {
        if let Some(refusal) = self.standing().refusal_of_plain() {
            return Err(refusal);
        }
        let call = make_message(self.alloc, self.own(), agent, executor, data);
        self.say(call)
    }

    fn own(&self) -> &Id
        requires { IsSome self.now.framework }
        ensures { self.now.framework ≡ Some result.now }
    {
        self.framework.as_ref().unwrap()
    }

    /// Applies a call that is allowed and could be made.
    fn say(&mut self, call: Result<Call, NoMemory>) -> Result<Call, Refusal>
        ensures ok { IfOk result (λ made. (call ≡ Ok made)
            × (self.new ≡ after self.old (Said made))) }
        ensures err { IfErr result (λ refusal. (refusal ≡ Refusal.NoMemory)
            × (self.new ≡ self.old)) }
    {
        let call = call?;
        self.apply(&call);
        Ok(call)
    }
}
