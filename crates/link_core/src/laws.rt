ghost use Rattle.link_core.specs.LinkChoosers.{DrawnLinksArePossible, LinkRunsAreComplete, LinkRunsAreOne, SomeLinkIsDrawn};
ghost use Rattle.link_core.specs.LinkLaws.{LinkRecordSays, LinksHaveOneFault, LinksHaveOneText, LinksHaveText, LinksStandForOne};
ghost use Rattle.link_core.specs.LinkOrder.{EventsAreOverPlain, LinkChoicesArePossible, LinksAreReached, LinkStepsReach, MessagesAreDeliveredOnce, SomeLinkMoves};

use symple_face::Site;

/// A text of form 3 stands for one run over links, or has one fault. Such a run has one text, if it isn't too
/// long, and a recorder holds it. It does nothing.
pub fn links_have_one_text()
    ensures pair { LinksStandForOne }
    ensures text { LinksHaveText }
    ensures alone { LinksHaveOneText }
    ensures recorded { LinkRecordSays }
    ensures fault { LinksHaveOneFault }
{}

/// The laws of runs over links by machines of a kind, which its clauses say: possible events are over their
/// plain part, and each message is taken once. It does nothing.
pub fn links_are_in_order<S: Site>()
    ensures plain { EventsAreOverPlain S.work }
    ensures delivered { MessagesAreDeliveredOnce S.work S.sound }
    ensures reached { LinksAreReached S.work S.sound }
    ensures reach { LinkStepsReach S.work S.sound }
    ensures moves { SomeLinkMoves S.work S.sound }
    ensures choices { LinkChoicesArePossible S.work S.sound }
{}

/// The laws of the events that are drawn over links, which its clauses say: each is possible in its turn, and
/// where they lead to the end they are one complete list. It does nothing.
pub fn drawn_links_are_possible<S: Site>()
    ensures some { SomeLinkIsDrawn S.work S.sound }
    ensures possible { DrawnLinksArePossible S.work S.sound }
    ensures complete { LinkRunsAreComplete S.work S.sound }
    ensures one { LinkRunsAreOne S.work }
{}
