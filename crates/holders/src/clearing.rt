// A holder or an agenda of any kind, made as if new.
ghost use Rattle.std.specs.Prelude.{◌≡◌, replicate, None};

use crate::agenda::Agenda;
use crate::holder::Holder;

// Every place gets 0.
pub fn clear_places<H: Holder>(holder: &mut H)
    ensures { H.Holder.row holder.new ≡ replicate H.Holder.PLACES 0 }
{
    // place by place, since a holder lends no row to go over; so in clear_agenda
    for i in 0..H::count() {
        holder.put(i, 0);
    }
}

// Every place gets 0 and loses its key.
pub fn clear_agenda<A: Agenda>(agenda: &mut A)
    ensures numbers { A.Holder.row agenda.new ≡ replicate A.Holder.PLACES 0 }
    ensures keys { A.Agenda.keys agenda.new ≡ replicate A.Holder.PLACES None }
{
    clear_places(agenda);
    for i in 0..A::count() {
        agenda.unkey(i);
    }
}
