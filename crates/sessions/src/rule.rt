// Which bounding rule a session was set up with: one of the delivered rules.
pub use partials::delivered::Rule;
