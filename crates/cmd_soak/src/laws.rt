//! What the script of a soak comes to. Each function has an empty body: its clause is a law.

ghost use Rattle.cmd_soak.specs.Laws.{SoaksDealRows, SoaksSendAll};

/// The first few numbers, as they are dealt out.
pub fn soaks_deal_rows()
    ensures law { SoaksDealRows }
{}

/// Each message is dealt to one sender, and the bursts are enough for what each sender has.
pub fn soaks_send_all()
    ensures law { SoaksSendAll }
{}
