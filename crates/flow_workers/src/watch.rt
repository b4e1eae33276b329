//! Watches, which are told how far a search is, and know when its time is over.

use flow_directions::News;
use flow_shop::Instance;

/// Is told how far a search for directions is, which changes nothing of what is found, and says when its time is over:
/// then the search ends with nothing.
pub trait Watch {
    ghost use Rattle.flow_directions.specs.News.{MayBeTold};

    /// A run begins: whether it was asked to say how far it is, and after how many seconds from now its time is over.
    fn begin(&self, asked: bool, seconds: Option<u32>);

    /// Whether it is to be told of directions also where one thread searches.
    fn is_on(&self) -> bool;

    /// Is told something new of an instance: bounds are told only where they are proved.
    fn tell(&self, instance: &Instance, news: News)
        requires { MayBeTold instance.now news };

    /// Whether the time is limited.
    fn is_limited(&self) -> bool;

    /// Whether the time is over. Then a search ends soon.
    fn is_over(&self) -> bool;
}

/// The watch that does nothing.
#[derive(Clone, Copy, Debug)]
pub struct Unwatched;

impl Watch for Unwatched {
    fn begin(&self, _asked: bool, _seconds: Option<u32>) {}

    fn is_on(&self) -> bool {
        false
    }

    fn tell(&self, _instance: &Instance, _news: News) {}

    fn is_limited(&self) -> bool {
        false
    }

    fn is_over(&self) -> bool {
        false
    }
}
