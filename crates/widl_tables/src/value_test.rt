//! What is asked of a value.

ghost use Rattle.std.specs.Prelude.{◌≡◌};
ghost use Rattle.widl_tables.specs.TypeTests.{asks};

use widl_value::Class;

/// What a test asks of a value, which its class answers.
#[derive(Clone, Copy, Debug, PartialEq, Eq)]
pub enum ValueTest {
    /// Nothing.
    Anything,
    /// That it is undefined.
    Undefined,
    /// That it is null or undefined.
    NullOrUndefined,
    /// That it is a platform object.
    PlatformObject,
    /// That it is another object that can be called.
    Callable,
    /// That it is an object.
    Object,
    /// That it is a Boolean.
    Boolean,
    /// That it is a Number.
    Number,
}

impl ValueTest {
    /// Whether a value of the class meets it.
    pub(crate) fn holds(self, class: Class) -> bool
        ensures { result ≡ asks self class }
    {
        match self {
            ValueTest::Anything => true,
            ValueTest::Undefined => matches!(class, Class::Undefined),
            ValueTest::NullOrUndefined => matches!(class, Class::Undefined | Class::Null),
            ValueTest::PlatformObject => matches!(class, Class::Platform(_)),
            ValueTest::Callable => matches!(class, Class::Callable),
            ValueTest::Object => matches!(
                class,
                Class::Platform(_) | Class::Callable | Class::Plain
            ),
            ValueTest::Boolean => matches!(class, Class::Bool),
            ValueTest::Number => matches!(class, Class::Num),
        }
    }
}
