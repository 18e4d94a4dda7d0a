// The walk in instalments over a state that C lends, which is walked where it lies: the answer in numbers. Nothing is decided here.
#![tactic(auto)]

ghost use Rattle.std.specs.Prelude.{◌≡◌};
ghost use Rattle.format.specs.Units.{domain, text, binary};
ghost use Rattle.instalments.specs.Instalments.{walk_on};
ghost use Rattle.instalments.specs.Numbers.{pause_number, pause_place};
ghost use Rattle.exports_values.specs.Lent.{walk_of};
ghost use Rattle.exports_lent.specs.Answers.{state_behind};

use exports_values::STATE;
use format::Form;

// items: how many were taken; answer: the place of a refusal, else 0. With no item the state stays as it was.
fn walk_on(
    form: Form,
    stream: &[u8],
    state: &mut [usize; STATE],
    budget: usize,
    items: &mut usize,
    answer: &mut usize,
) -> u8
    ensures value { result ≡ pause_number (walk_on (domain form) stream.now budget (walk_of state.old)).pause }
    ensures answer_after { answer.new ≡ pause_place (walk_on (domain form) stream.now budget (walk_of state.old)).pause }
    ensures after { items.new ≡ (walk_on (domain form) stream.now budget (walk_of state.old)).items }
    ensures state_after { state.new ≡ state_behind (walk_on (domain form) stream.now budget (walk_of state.old)) state.old }
{
    let p = exports_place::place_of(state);
    let went = instalments_walk::go_on(state, p, form, stream, budget);
    let next = went.place;
    let pause = went.pause;
    exports_pause::put_behind(state, went.items, next);
    *items = went.items;
    *answer = exports_pause::place_of(pause);
    exports_pause::number_of(pause)
}

// At most so many items of a text from the state on.
pub fn walk_on_text(
    stream: &[u8],
    state: &mut [usize; STATE],
    budget: usize,
    items: &mut usize,
    answer: &mut usize,
) -> u8
    ensures value { result ≡ pause_number (walk_on text stream.now budget (walk_of state.old)).pause }
    ensures answer_after { answer.new ≡ pause_place (walk_on text stream.now budget (walk_of state.old)).pause }
    ensures after { items.new ≡ (walk_on text stream.now budget (walk_of state.old)).items }
    ensures state_after { state.new ≡ state_behind (walk_on text stream.now budget (walk_of state.old)) state.old }
{
    walk_on(Form::Text, stream, state, budget, items, answer)
}

// The same of a binary.
pub fn walk_on_binary(
    stream: &[u8],
    state: &mut [usize; STATE],
    budget: usize,
    items: &mut usize,
    answer: &mut usize,
) -> u8
    ensures value { result ≡ pause_number (walk_on binary stream.now budget (walk_of state.old)).pause }
    ensures answer_after { answer.new ≡ pause_place (walk_on binary stream.now budget (walk_of state.old)).pause }
    ensures after { items.new ≡ (walk_on binary stream.now budget (walk_of state.old)).items }
    ensures state_after { state.new ≡ state_behind (walk_on binary stream.now budget (walk_of state.old)) state.old }
{
    walk_on(Form::Binary, stream, state, budget, items, answer)
}
