//! What a sender's committed sends come to, and a client's committed marks.
ghost use Rattle.std.specs.Prelude.{◌≡◌, ◌↔◌, ◌⊎◌, true, Err, IfErr, IfOk};
ghost use Rattle.rq_model.specs.History.Call.{Client_tag, Last_tag};
ghost use Rattle.rq_model.specs.Replay.Reply.{Gave_client_tag, Gave_tag};
ghost use Rattle.rq_engine.specs.Answers.{AnswersLegally};
ghost use Rattle.rq_engine.specs.Lists.{ClientTagSays, LastTagSays};

use crate::engine::Engine;
use crate::event::{ClientTag, LastTag};
use rq_disk::{LogDevice, PageDevice};
use rq_level::Level;
use rq_model::refusal::Refusal;

impl<P: PageDevice, L: LogDevice, B: Level> Engine<P, L, B> {
    /// How many messages of the sender are committed, and the tag of the last one. Neither memory nor a device is
    /// asked.
    ///
    /// # Errors
    /// `Failed`, `UnknownSender`.
    pub fn last_tag(&self, sender: u32) -> Result<LastTag, Refusal>
        ensures answered { AnswersLegally P.PageDevice L.LogDevice self.now (Last_tag sender)
            (λ last. Gave_tag last.sent last.tag) result self.now }
        ensures lists { IfOk result (λ last. LastTagSays self.now.state sender last self.now.state) }
        ensures failed { (result ≡ Err Refusal.Failed) ↔ (self.now.state.failed ≡ true) }
        ensures refusal { IfErr result (λ r. (r ≡ Refusal.Failed) ⊎ (r ≡ Refusal.UnknownSender)) }
    {
        self.check_running()?;
        if sender >= self.pages.layout().senders() {
            return Err(Refusal::UnknownSender);
        }
        Ok(self.sent.last_tag(sender as usize))
    }

    /// How many marks of the client are committed, and the tag of the last one. Neither memory nor a device is asked.
    ///
    /// # Errors
    /// `Failed`, `UnknownClient`.
    pub fn client_tag(&self, client: u32) -> Result<ClientTag, Refusal>
        ensures answered { AnswersLegally P.PageDevice L.LogDevice self.now (Client_tag client)
            (λ last. Gave_client_tag last.count last.tag) result self.now }
        ensures lists { IfOk result (λ last. ClientTagSays self.now.state client last self.now.state) }
        ensures failed { (result ≡ Err Refusal.Failed) ↔ (self.now.state.failed ≡ true) }
        ensures refusal { IfErr result (λ r. (r ≡ Refusal.Failed) ⊎ (r ≡ Refusal.UnknownClient)) }
    {
        self.check_running()?;
        let layout = self.pages.layout();
        if client >= layout.clients() {
            return Err(Refusal::UnknownClient);
        }
        let last = self
            .sent
            .last_tag(layout.senders() as usize + client as usize);
        Ok(ClientTag {
            count: last.sent,
            tag: last.tag,
        })
    }
}
