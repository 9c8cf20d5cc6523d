ghost use Rattle.std.specs.Prelude.{◌≡◌};
ghost use Rattle.tk_lives.specs.Lives.{greatest_life as the_greatest_life, life_in};
ghost use Rattle.tk_lives.specs.Taking.{spent_node as the_spent_node};

use tk_journal::{Actor, Entry, Journal};

/// The life of the kubelet of this number, where an entry is that kubelet's.
fn life_of(entry: &Entry, number: u32) -> u32
    ensures { result ≡ life_in number entry.now.actor }
{
    match entry.actor {
        Actor::Kubelet {
            number: other,
            life,
        } => if other == number { life } else { 0 },
        _ => 0,
    }
}

/// The greatest life of the kubelet of this number that stands in a journal, or 0.
pub fn greatest_life(journal: &Journal, number: u32) -> u32
    ensures { result ≡ the_greatest_life number journal.now.history }
{
    let mut greatest = 0;
    for place in 0..journal.len() {
        greatest = life_of(journal.entry(place + 1), number).max(greatest);
    }
    greatest
}

/// The least number of so many kubelets whose last life stands in a journal: it can't begin another one.
pub fn spent_node(journal: &Journal, nodes: u32) -> Option<u32>
    ensures { result ≡ the_spent_node nodes journal.now.history }
{
    for number in 0..nodes {
        if greatest_life(journal, number) == u32::MAX {
            return Some(number);
        }
    }
    None
}
